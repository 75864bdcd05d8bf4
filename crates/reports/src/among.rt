//! The answers for SYSMODs that were asked for, each by its index among them.
ghost use Rattle.std.specs.Prelude.{◌≡◌, true, ℕ, List, Option, Some, map, option_map, OnOk};
ghost use Rattle.std.specs.List.{slice_get};
ghost use Rattle.std.specs.Global.{Vec};
ghost use Rattle.mcs_reader.specs.declared.id.Id.{Id};
ghost use Rattle.catalogue.specs.Ids.{Ascend, put_among};
ghost use Rattle.supersede.specs.Reach.{has};
ghost use Rattle.verdicts.specs.declared.verdict.Status.{Status};

use faults::NoMemory;
use mcs_reader::Id;
use std::collections::BTreeSet;
use supersede::index_among;
use verdicts::Status;

/// The candidates that were found for `id`; `other` if it isn't among the SYSMODs that were asked for.
pub fn answer_among<'a>(
    asked: &[Id],
    answers: &'a [Option<Vec<Id>>],
    other: &'a Option<Vec<Id>>,
    id: &Id,
) -> &'a Option<Vec<Id>>
    requires { Ascend asked.now }
    ensures { (f : List ℕ → Option (List (List ℕ)))
        → map (option_map (λ ids. ids.items)) answers.now ≡ map f asked.now
        → has asked.now id.now ≡ true → option_map (λ ids. ids.items) result.now ≡ f id.now }
{
    match index_among(asked, id) {
        Some(at) => answer_at(answers, other, at),
        None => other,
    }
}

fn answer_at<'a>(
    answers: &'a [Option<Vec<Id>>],
    other: &'a Option<Vec<Id>>,
    at: usize,
) -> &'a Option<Vec<Id>>
    ensures { (answer : Option (Vec Id)) → slice_get answers.now at ≡ Some answer → result.now ≡ answer }
{
    match answers.get(at) {
        Some(answer) => answer,
        None => other,
    }
}

/// The SYSMODs that give `id`; `other` if it isn't among the SYSMODs that were asked for.
pub fn list_among<'a>(
    asked: &[Id],
    lists: &'a [Vec<Id>],
    other: &'a Vec<Id>,
    id: &Id,
) -> &'a Vec<Id>
    requires { Ascend asked.now }
    ensures { (f : List ℕ → List (List ℕ)) → map (λ list. list.items) lists.now ≡ map f asked.now
        → has asked.now id.now ≡ true → result.now.items ≡ f id.now }
{
    match index_among(asked, id) {
        Some(at) => list_at(lists, other, at),
        None => other,
    }
}

fn list_at<'a>(lists: &'a [Vec<Id>], other: &'a Vec<Id>, at: usize) -> &'a Vec<Id>
    ensures { (list : Vec Id) → slice_get lists.now at ≡ Some list → result.now ≡ list }
{
    match lists.get(at) {
        Some(list) => list,
        None => other,
    }
}

/// The status of one of the SYSMODs that were asked for.
pub(crate) fn status_among(asked: &[Id], statuses: &[Status], id: &Id) -> Status
    requires { Ascend asked.now }
    ensures { (f : List ℕ → Status) → statuses.now ≡ map f asked.now
        → has asked.now id.now ≡ true → result ≡ f id.now }
{
    match index_among(asked, id) {
        Some(at) => status_at(statuses, at),
        None => Status::Lack,
    }
}

fn status_at(statuses: &[Status], at: usize) -> Status
    ensures { (status : Status) → slice_get statuses.now at ≡ Some status → result ≡ status }
{
    match statuses.get(at) {
        Some(status) => *status,
        None => Status::Lack,
    }
}

/// Whether a SYSMOD is among others.
pub fn is_among(ids: &[Id], id: &Id) -> bool
    requires { Ascend ids.now }
    ensures { result ≡ has ids.now id.now }
{
    index_among(ids, id).is_some()
}

/// Adds ids, in order.
///
/// # Errors
///
/// `NoMemory` if memory ran out.
pub fn put_all(found: &mut BTreeSet<Id>, ids: &[Id]) -> Result<(), NoMemory>
    ensures { OnOk result (found.new.keys ≡ put_among found.old.keys ids.now) }
{
    for id in ids {
        found.insert(*id)?;
    }
    Ok(())
}
