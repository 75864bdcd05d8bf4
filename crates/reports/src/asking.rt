//! The SYSMODs that are asked for on behalf of a hold, and its resolvers by the answers.
ghost use Rattle.std.specs.Prelude.{◌≡◌, ◌++◌, ◌∷◌, [], true, List, option_map, IfOk, IfSome, OnOk};
ghost use Rattle.std.specs.List.{cons_option};
ghost use Rattle.zone_lists.specs.declared.zones.ZoneRow.{ZoneRow};
ghost use Rattle.catalogue.specs.Content.{Content};
ghost use Rattle.catalogue.specs.Ids.{Ascend, in_order, put_among};
ghost use Rattle.supersede.specs.Reach.{has};
ghost use Rattle.reports.specs.Found as Spec;
ghost use Rattle.reports.specs.Resolvers.{AreAmong, AreAnswers, unless_there};

use crate::among::{answer_among, put_all};
use faults::NoMemory;
use holddata::Hold;
use mcs_reader::Id;
use std::alloc::Global;
use std::collections::BTreeSet;

/// The relation of a hold to the SYSMODs that resolve it.
#[derive(Clone, Copy)]
pub(crate) enum By {
    /// They give its reason.
    Reason,
    /// They give its reason or its resolver, which resolves it too.
    ReasonOrResolver,
}

/// The candidates that give a SYSMOD, ascending, unless it is there.
pub(crate) type Answer = Option<Vec<Id>>;

/// Adds the SYSMODs that are asked for, in order.
pub(crate) fn put_named(by: By, hold: &Hold, ids: &mut BTreeSet<Id>) -> Result<(), NoMemory>
    ensures { OnOk result (ids.new.keys ≡ put_among ids.old.keys (Spec.named_by by hold.now)) }
{
    ids.insert(hold.key.reason)?;
    match by {
        By::Reason => Ok(()),
        By::ReasonOrResolver => put_any(ids, hold.resolver),
    }
}

// Adds an id, in order, if there is one.
fn put_any(ids: &mut BTreeSet<Id>, id: Option<Id>) -> Result<(), NoMemory>
    ensures { OnOk result (ids.new.keys ≡ put_among ids.old.keys (cons_option id [])) }
{
    if let Some(id) = id {
        ids.insert(id)?;
    }
    Ok(())
}

/// The SYSMODs that resolve a hold, by the answer for each SYSMOD that was asked for, unless it is resolved
/// already.
pub(crate) fn resolving(
    alloc: Global,
    by: By,
    hold: &Hold,
    asked: &[Id],
    answers: &[Answer],
) -> Result<Answer, NoMemory>
    requires { Ascend asked.now }
    ensures { IfOk result (λ found. (content : Content) (rows : List ZoneRow)
        → AreAnswers content rows asked.now answers.now → AreAmong (Spec.named_by by hold.now) asked.now
        → option_map (λ ids. ids.items) found ≡ Spec.resolved_by by content rows hold.now) }
{
    match by {
        By::Reason => by_reason(asked, answers, &hold.key.reason),
        By::ReasonOrResolver => by_either(alloc, asked, answers, &hold.key.reason, &hold.resolver),
    }
}

// The candidates that give a reason, unless it is there.
fn by_reason(asked: &[Id], answers: &[Answer], reason: &Id) -> Result<Answer, NoMemory>
    requires { Ascend asked.now }
    ensures { IfOk result (λ found. (content : Content) (rows : List ZoneRow)
        → AreAnswers content rows asked.now answers.now → has asked.now reason.now ≡ true
        → option_map (λ ids. ids.items) found ≡ unless_there content rows reason.now) }
{
    let none = None;
    copied(answer_among(asked, answers, &none, reason))
}

fn copied(answer: &Answer) -> Result<Answer, NoMemory>
    ensures { IfOk result
        (λ copy. option_map (λ ids. ids.items) copy ≡ option_map (λ ids. ids.items) answer.now) }
{
    match answer {
        Some(ids) => Ok(Some(ids.clone()?)),
        None => Ok(None),
    }
}

// The SYSMODs that resolve a hold by its reason and by its resolver, unless one of the two is there.
fn by_either(
    alloc: Global,
    asked: &[Id],
    answers: &[Answer],
    reason: &Id,
    resolver: &Option<Id>,
) -> Result<Answer, NoMemory>
    requires { Ascend asked.now }
    ensures { IfOk result (λ found. (content : Content) (rows : List ZoneRow)
        → AreAnswers content rows asked.now answers.now → has asked.now reason.now ≡ true
        → IfSome resolver.now (λ resolver. has asked.now resolver ≡ true)
        → option_map (λ ids. ids.items) found
        ≡ Spec.both_of (unless_there content rows reason.now)
        (Spec.unless_resolver_there content rows resolver.now)) }
{
    let none = None;
    let by_reason = answer_among(asked, answers, &none, reason);
    let by_resolver = unless_resolver_there(alloc, asked, answers, resolver)?;
    both_of(alloc, by_reason, &by_resolver)
}

// The resolver of a hold and the candidates that give it, unless it is there; none if the hold has none.
fn unless_resolver_there(
    alloc: Global,
    asked: &[Id],
    answers: &[Answer],
    resolver: &Option<Id>,
) -> Result<Answer, NoMemory>
    requires { Ascend asked.now }
    ensures { IfOk result (λ found. (content : Content) (rows : List ZoneRow)
        → AreAnswers content rows asked.now answers.now
        → IfSome resolver.now (λ resolver. has asked.now resolver ≡ true)
        → option_map (λ ids. ids.items) found ≡ Spec.unless_resolver_there content rows resolver.now) }
{
    let Some(resolver) = resolver else {
        return Ok(Some(Vec::new(alloc)));
    };
    let other = None;
    with_itself(answer_among(asked, answers, &other, resolver), resolver)
}

// The candidates that give a resolver, and the resolver.
fn with_itself(found: &Answer, resolver: &Id) -> Result<Answer, NoMemory>
    ensures { IfOk result (λ all. option_map (λ ids. ids.items) all
        ≡ option_map (λ ids. ids.items ++ resolver.now ∷ []) found.now) }
{
    match found {
        Some(ids) => {
            let mut all = ids.clone()?;
            all.push(*resolver)?;
            Ok(Some(all))
        }
        None => Ok(None),
    }
}

// The SYSMODs that resolve a hold by its reason and by its resolver, ascending, each once, unless one of the two
// is there.
fn both_of(alloc: Global, by_reason: &Answer, by_resolver: &Answer) -> Result<Answer, NoMemory>
    ensures { IfOk result (λ all. option_map (λ ids. ids.items) all
        ≡ Spec.both_of (option_map (λ ids. ids.items) by_reason.now)
        (option_map (λ ids. ids.items) by_resolver.now)) }
{
    match (by_reason, by_resolver) {
        (Some(by_reason), Some(by_resolver)) => Ok(Some(union(alloc, by_reason, by_resolver)?)),
        _ => Ok(None),
    }
}

fn union(alloc: Global, ids: &[Id], more: &[Id]) -> Result<Vec<Id>, NoMemory>
    ensures { IfOk result (λ all. all.items ≡ in_order (ids.now ++ more.now)) }
{
    let mut all = BTreeSet::new(alloc);
    put_all(&mut all, ids)?;
    put_all(&mut all, more)?;
    all.into_iter().collect(alloc)
}
