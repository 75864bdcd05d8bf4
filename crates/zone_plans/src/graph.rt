//! Members by their indices: the givers of each, and of its needs.
ghost use Rattle.std.specs.Prelude.{◌≡◌, ◌<◌, ◌∷◌, [], ℕ, List, Option, true, Contains, IfOk, OnOk, length, map, option_map};
ghost use Rattle.catalogue.specs.Ids.{Ascend};
ghost use Rattle.supersede.specs.Reach.{has};
ghost use Rattle.verdicts.specs.Indices.{AreIndicesOf, RowsAre};
ghost use Rattle.zone_plans.specs.Graphs.{AreGiven, AreGivenIndices, AreAnswered, ArePushed, list_at, lists_of};
ghost use Rattle.zone_plans.specs.Readings.{all_needs};

use crate::reading::Reading;
use faults::NoMemory;
use mcs_reader::Id;
use reports::answer_among;
use requisites::{Rows, is_marked};
use std::alloc::Global;
use verdicts::{index_of, put_indices};

/// The answer for a need: the candidates that give it, ascending, unless it is there.
pub(crate) type Answer = Option<Vec<Id>>;

/// By index, the members in each list.
pub(crate) fn member_rows(alloc: Global, ids: &[Id], lists: &[Vec<Id>]) -> Result<Rows, NoMemory>
    requires { Ascend ids.now }
    ensures { IfOk result (λ rows. RowsAre
        (λ p indices. AreIndicesOf ids.now (list_at (lists_of lists.now) p) indices)
        (length lists.now) rows) }
{
    let mut rows = Rows::new(alloc);
    let mut own = Vec::new(alloc);
    for list in lists {
        put_indices(&mut own, ids, 0, list)?;
        rows.push_row(&own)?;
    }
    Ok(rows)
}

/// By index, the members that are left and give what each needs.
pub(crate) fn need_rows(
    alloc: Global,
    ids: &[Id],
    left: &[bool],
    readings: &[Reading],
    asked: &[Id],
    answers: &[Answer],
) -> Result<Rows, NoMemory>
    requires ascend { Ascend ids.now }
    requires asked { Ascend asked.now }
    ensures { IfOk result (λ rows. (f : List ℕ → Option (List (List ℕ)))
        → map (option_map (λ ids. ids.items)) answers.now ≡ map f asked.now
        → asked.now ≡ all_needs readings.now
        → AreGiven f ids.now left.now readings.now rows) }
{
    let mut rows = Rows::new(alloc);
    let mut own = Vec::new(alloc);
    for reading in readings {
        put_given(&mut own, ids, left, reading.needs(), asked, answers)?;
        rows.push_row(&own)?;
    }
    Ok(rows)
}

// Turns a list into that of the indices of the members that are left and give a need.
fn put_given(
    indices: &mut Vec<usize>,
    ids: &[Id],
    left: &[bool],
    needs: &[Id],
    asked: &[Id],
    answers: &[Answer],
) -> Result<(), NoMemory>
    requires ascend { Ascend ids.now }
    requires asked { Ascend asked.now }
    ensures { OnOk result ((f : List ℕ → Option (List (List ℕ)))
        → map (option_map (λ ids. ids.items)) answers.now ≡ map f asked.now
        → ((need : List ℕ) → Contains needs.now need → has asked.now need ≡ true)
        → AreGivenIndices f ids.now left.now needs.now indices.new.items) }
{
    indices.clear();
    let none = None;
    for need in needs {
        push_answer(
            indices,
            ids,
            left,
            answer_among(asked, answers, &none, need),
        )?;
    }
    Ok(())
}

fn push_answer(
    indices: &mut Vec<usize>,
    ids: &[Id],
    left: &[bool],
    answer: &Answer,
) -> Result<(), NoMemory>
    requires { Ascend ids.now }
    ensures { OnOk result (AreAnswered ids.now left.now (option_map (λ ids. ids.items) answer.now)
        indices.old.items indices.new.items) }
{
    match answer {
        Some(givers) => push_left(indices, ids, left, givers),
        None => Ok(()),
    }
}

// Adds the indices of those that are members and left.
fn push_left(
    indices: &mut Vec<usize>,
    ids: &[Id],
    left: &[bool],
    givers: &[Id],
) -> Result<(), NoMemory>
    requires { Ascend ids.now }
    ensures { OnOk result
        (ArePushed ids.now left.now givers.now indices.old.items indices.new.items) }
{
    for giver in givers {
        push_one(indices, ids, left, giver)?;
    }
    Ok(())
}

fn push_one(indices: &mut Vec<usize>, ids: &[Id], left: &[bool], giver: &Id) -> Result<(), NoMemory>
    requires { Ascend ids.now }
    ensures { OnOk result
        (ArePushed ids.now left.now (giver.now ∷ []) indices.old.items indices.new.items) }
{
    if let Some(index) = index_of(ids, giver) {
        if is_marked(left, index) {
            indices.push(index)?;
        }
    }
    Ok(())
}
