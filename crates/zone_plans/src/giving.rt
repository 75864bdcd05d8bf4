//! The givers of each member.
ghost use Rattle.std.specs.Prelude.{◌≡◌, List, Option, ℕ, IfOk, map, option_map};
ghost use Rattle.catalogue.specs.Ids.{Ascend};
ghost use Rattle.catalogue.specs.View.{MayAsk, Tells};
ghost use Rattle.catalogue.specs.declared.fault.SourceFault.TheVariants.{Device};
ghost use Rattle.supersede.specs.Giving.{givers_of};
ghost use Rattle.zone_plans.specs.Findings.{givers_or, known_givers};
ghost use Rattle.zone_plans.specs.Graphs.{lists_of};

use crate::graph::Answer;
use catalogue::{Published, SourceFault};
use faults::NoMemory;
use mcs_reader::Id;
use reports::answer_among;
use std::alloc::Global;
use supersede::{Zone, givers};
use verdicts::Judge;

/// For each of some SYSMODs those that give it, itself or through others: all candidates that do, and maybe others.
pub(crate) fn givers_of_all<P: Published, J: Judge<P>>(
    alloc: Global,
    source: &mut P,
    judge: &mut J,
    zone: &Zone,
    ids: &[Id],
) -> Result<Vec<Vec<Id>>, SourceFault>
    requires { Ascend ids.now }
    ensures asks { MayAsk P.content_view Device source.old source.new result }
    ensures givers { IfOk result (λ lists. Tells P.content_view source.old source.new
        (λ content. J.is_right judge.old content
        → lists_of lists.items ≡ map (known_givers content zone.now) ids.now)) }
    ensures right { Tells P.content_view source.old source.new
        (λ content. J.is_right judge.old content → J.is_right judge.new content) }
{
    let answers = judge.candidates(alloc, source, zone, ids)?;
    givers_by(alloc, source, ids, &answers)
}

// The answer for each, or all that give it if it is there.
fn givers_by<P: Published>(
    alloc: Global,
    source: &mut P,
    ids: &[Id],
    answers: &[Answer],
) -> Result<Vec<Vec<Id>>, SourceFault>
    requires { Ascend ids.now }
    ensures asks { MayAsk P.content_view Device source.old source.new result }
    ensures givers { IfOk result (λ lists. Tells P.content_view source.old source.new
        (λ content. (f : List ℕ → Option (List (List ℕ)))
        → map (option_map (λ ids. ids.items)) answers.now ≡ map f ids.now
        → lists_of lists.items ≡ map (λ id. givers_or (f id) (givers_of content id)) ids.now)) }
{
    let none = None;
    let mut lists = Vec::with_capacity(alloc, ids.len())?;
    for id in ids {
        let answer = answer_among(ids, answers, &none, id);
        lists.push(givers_at(alloc, source, id, answer)?)?;
    }
    Ok(lists)
}

fn givers_at<P: Published>(
    alloc: Global,
    source: &mut P,
    id: &Id,
    answer: &Answer,
) -> Result<Vec<Id>, SourceFault>
    ensures asks { MayAsk P.content_view Device source.old source.new result }
    ensures givers { IfOk result (λ list. Tells P.content_view source.old source.new
        (λ content. list.items
        ≡ givers_or (option_map (λ ids. ids.items) answer.now) (givers_of content id.now))) }
{
    match answer {
        Some(known) => Ok(copied(known)?),
        None => givers(alloc, source, id),
    }
}

/// Copies ids.
pub(crate) fn copied(ids: &Vec<Id>) -> Result<Vec<Id>, NoMemory>
    ensures { IfOk result (λ copy. copy.items ≡ ids.now.items) }
{
    ids.clone()
}
