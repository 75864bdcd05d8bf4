//! The members of a plan, step by step.
ghost use Rattle.std.specs.Prelude.{◌≡◌, ◌<◌, List, ℕ, Contains, IfOk, length, map, option_map};
ghost use Rattle.catalogue.specs.Content.{Content};
ghost use Rattle.catalogue.specs.Ids.{Ascend};
ghost use Rattle.verdicts.specs.Candidates.{candidates_unless_there};
ghost use Rattle.verdicts.specs.Indices as Indices;
ghost use Rattle.verdicts.specs.Judge as judge;
ghost use Rattle.verdicts.specs.Verdicts.{verdict_of};
ghost use Rattle.verdicts.specs.declared.verdict.Status.TheVariants as status;
ghost use Rattle.zone_lists.specs.declared.zones.ZoneRow.{ZoneRow};
ghost use Rattle.zone_plans.specs.Findings.{findings_of, known_givers};
ghost use Rattle.zone_plans.specs.Graphs.{AreReachedFrom, AreStartsOf, AreWithin, ids_of_steps, lists_of};
ghost use Rattle.zone_plans.specs.Readings.{all_needs, reading_of};
ghost use Rattle.verdicts.specs.United.{united};
ghost use Rattle.zone_plans.specs.Members.{AreZoneSteps};

use crate::findings::Findings;
use crate::giving::copied;
use crate::graph::{Answer, member_rows, need_rows};
use crate::marks::{left_and_sourced, marks_among, sourced};
use crate::reading::Reading;
use faults::NoMemory;
use install_order::{left_marks, steps};
use mcs_reader::Id;
use requisites::{Rows, least_sources};
use std::alloc::Global;
use std::marker::Model;

/// The steps of a plan, in the order of installation. A contract sees the ids of each step.
#[derive(Debug, Drop)]
pub struct Steps {
    // The ids of the chosen plans, and by their indices those of each step.
    ids: Vec<Id>,
    rows: Rows,
}

impl Model for Steps {
    ghost use Rattle.std.specs.Prelude.{ℕ, List};
    ghost use Rattle.zone_plans.specs.Graphs.{AreWithin, ids_of_steps};

    ghost Value = { List (List (List ℕ)) };

    ghost view = { λ steps. ids_of_steps steps.ids.items steps.rows };

    ghost invariant = { λ steps. AreWithin steps.ids.items steps.rows };
}

impl Steps {
    ghost use Rattle.std.specs.Prelude.{◌≡◌, ◌<◌, [], IfOk, length, slice_index_or};

    /// The number of steps.
    pub fn len(&self) -> usize
        ensures { result ≡ length self.now }
    {
        self.rows.len()
    }

    /// The ids of a step, ascending.
    ///
    /// # Errors
    ///
    /// `NoMemory` if memory ran out.
    pub fn step(&self, alloc: Global, index: usize) -> Result<Vec<Id>, NoMemory>
        requires { index < length self.now }
        ensures { IfOk result (λ ids. ids.items ≡ slice_index_or self.now index []) }
    {
        ids_at(alloc, &self.ids, self.rows.row(index))
    }
}

// The ids at indices.
fn ids_at(alloc: Global, ids: &[Id], indices: &[usize]) -> Result<Vec<Id>, NoMemory>
    requires { (p : ℕ) → Contains indices.now p → p < length ids.now }
    ensures { IfOk result (λ found. found.items ≡ map (Indices.id_at ids.now) indices.now) }
{
    let mut found = Vec::with_capacity(alloc, indices.len())?;
    for index in indices {
        found.push(id_at(ids, *index))?;
    }
    Ok(found)
}

fn id_at(ids: &[Id], index: usize) -> Id
    requires { index < length ids.now }
    ensures { result ≡ Indices.id_at ids.now index }
{
    ids[index]
}

/// Finds the steps that install the members of the chosen plans of some resolvers, by the findings on them. Each that
/// another member gives is left out, and so is each that nothing needs then.
pub(crate) fn zone_steps(
    alloc: Global,
    findings: &Findings,
    chosen: &[Id],
) -> Result<Steps, NoMemory>
    requires { Ascend chosen.now }
    ensures { IfOk result (λ steps. (content : Content) (rows : List ZoneRow)
        → findings.now ≡ findings_of content rows (united content rows chosen.now)
        → ((id : List ℕ) → Contains chosen.now id
        → judge.status_of (verdict_of content rows id) ≡ status.Good)
        → AreZoneSteps content rows chosen.now steps) }
{
    let rows = step_rows(
        alloc,
        &findings.ids,
        &findings.givers,
        &findings.readings,
        &findings.asked,
        &findings.answers,
        chosen,
    )?;
    let ids = copied(&findings.ids)?;
    Ok(Steps { ids, rows })
}

// By index.
fn step_rows(
    alloc: Global,
    ids: &[Id],
    givers: &[Vec<Id>],
    readings: &[Reading],
    asked: &[Id],
    answers: &[Answer],
    chosen: &[Id],
) -> Result<Rows, NoMemory>
    requires ascend { Ascend ids.now }
    requires asked { Ascend asked.now }
    requires chosen { Ascend chosen.now }
    ensures within { IfOk result (λ found. AreWithin ids.now found) }
    ensures steps { IfOk result (λ found. (content : Content) (rows : List ZoneRow)
        → ids.now ≡ united content rows chosen.now
        → lists_of givers.now ≡ map (known_givers content rows) ids.now
        → readings.now ≡ map (reading_of content rows) ids.now
        → asked.now ≡ all_needs readings.now
        → map (option_map (λ ids. ids.items)) answers.now
        ≡ map (candidates_unless_there content rows) asked.now
        → ((id : List ℕ) → Contains chosen.now id
        → judge.status_of (verdict_of content rows id) ≡ status.Good)
        → AreZoneSteps content rows chosen.now (ids_of_steps ids.now found)) }
{
    let above = member_rows(alloc, ids, givers)?;
    let left = left_marks(alloc, &above, ids.len())?;
    let needs = need_rows(alloc, ids, &left, readings, asked, answers)?;
    let starts = start_marks(alloc, ids, &above, &left, chosen)?;
    let members = member_marks(alloc, &needs, &starts)?;
    steps(alloc, &needs, &members)
}

// The marks of those that are left and stand in for a chosen one.
fn start_marks(
    alloc: Global,
    ids: &[Id],
    above: &Rows,
    left: &[bool],
    chosen: &[Id],
) -> Result<Vec<bool>, NoMemory>
    requires chosen { Ascend chosen.now }
    requires len { length left.now ≡ length ids.now }
    ensures { IfOk result (λ starts. AreStartsOf ids.now above.now left.now chosen.now starts.items) }
{
    let marks = marks_among(alloc, ids, chosen)?;
    let sources = least_sources(alloc, above, &marks)?;
    left_and_sourced(alloc, left, &sources)
}

// The marks of those to which needs lead.
fn member_marks(alloc: Global, needs: &Rows, starts: &[bool]) -> Result<Vec<bool>, NoMemory>
    ensures { IfOk result (λ members. AreReachedFrom needs.now starts.now members.items) }
{
    let sources = least_sources(alloc, needs, starts)?;
    sourced(alloc, &sources)
}
