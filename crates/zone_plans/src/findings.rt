//! The findings on the SYSMODs that chosen plans have together.
ghost use Rattle.std.specs.Prelude.{◌≡◌, ℕ, List, Some, IfOk, map, true};
ghost use Rattle.std.specs.List.{slice_get};
ghost use Rattle.catalogue.specs.Ids.{Ascend};
ghost use Rattle.catalogue.specs.View.{MayAsk, Tells};
ghost use Rattle.catalogue.specs.declared.fault.SourceFault.TheVariants.{Device};
ghost use Rattle.supersede.specs.Reach.{has};
ghost use Rattle.verdicts.specs.United.{united};
ghost use Rattle.zone_plans.specs.Findings.{findings_of};
ghost use Rattle.zone_plans.specs.Readings.{ReadingLists};

use crate::giving::givers_of_all;
use crate::graph::Answer;
use crate::reading::{Reading, needs_of_all, readings};
use catalogue::{Published, SourceFault};
use mcs_reader::Id;
use reports::{answer_among, list_among};
use std::alloc::Global;
use std::marker::Model;
use supersede::{Zone, index_among};
use verdicts::Judge;

/// The findings on the SYSMODs that chosen plans have together, before each one that another gives is left out: the
/// reading of each, its givers, and the givers of all needs (IBM z/OS SMP/E Reference, `++VER`, operands FMID, PRE, REQ
/// and SUP, and `++HOLD`).
#[derive(Debug, Drop)]
pub struct Findings {
    pub(crate) ids: Vec<Id>,
    pub(crate) readings: Vec<Reading>,
    pub(crate) givers: Vec<Vec<Id>>,
    pub(crate) asked: Vec<Id>,
    pub(crate) answers: Vec<Answer>,
}

impl Model for Findings {
    ghost use Rattle.std.specs.Prelude.{map, option_map};
    ghost use Rattle.catalogue.specs.Ids.{Ascend};
    ghost use Rattle.zone_plans.specs.Findings.{FindingLists};

    ghost Value = { FindingLists };

    ghost view = { λ findings. record {
      ids = findings.ids.items;
      readings = findings.readings.items;
      givers = map (λ list. list.items) findings.givers.items;
      asked = findings.asked.items;
      answers = map (option_map (λ ids. ids.items)) findings.answers.items;
    } };

    ghost invariant = { λ findings. record {
      ids : Ascend findings.ids.items;
      asked : Ascend findings.asked.items;
    } };
}

impl Findings {
    ghost use Rattle.std.specs.Prelude.{◌≡◌, List, Contains, option_map};
    ghost use Rattle.catalogue.specs.Content.{Content};
    ghost use Rattle.verdicts.specs.Candidates.{candidates_unless_there};
    ghost use Rattle.zone_lists.specs.declared.zones.ZoneRow.{ZoneRow};
    ghost use Rattle.zone_plans.specs.Findings.{AreFindings, known_givers};
    ghost use Rattle.zone_plans.specs.Readings.{reading_of};

    /// The reading of `id`; `other` if it isn't among the SYSMODs.
    pub fn reading<'a>(&'a self, other: &'a Reading, id: &Id) -> &'a Reading
        ensures { (content : Content) (rows : List ZoneRow) → AreFindings content rows self.now
            → Contains self.now.ids id.now → result.now ≡ reading_of content rows id.now }
    {
        reading_among(&self.ids, &self.readings, other, id)
    }

    /// The SYSMODs that give `id`, itself or through others, all candidates among them; `other` if it isn't among the
    /// SYSMODs.
    pub fn givers<'a>(&'a self, other: &'a Vec<Id>, id: &Id) -> &'a Vec<Id>
        ensures { (content : Content) (rows : List ZoneRow) → AreFindings content rows self.now
            → Contains self.now.ids id.now → result.now.items ≡ known_givers content rows id.now }
    {
        list_among(&self.ids, &self.givers, other, id)
    }

    /// The candidates that give `need`, or `None` if it is there; `other` if none of the SYSMODs needs it.
    pub fn answer<'a>(&'a self, other: &'a Option<Vec<Id>>, need: &Id) -> &'a Option<Vec<Id>>
        ensures { (content : Content) (rows : List ZoneRow) → AreFindings content rows self.now
            → Contains self.now.asked need.now
            → option_map (λ ids. ids.items) result.now ≡ candidates_unless_there content rows need.now }
    {
        answer_among(&self.asked, &self.answers, other, need)
    }
}

fn reading_among<'a>(
    ids: &[Id],
    readings: &'a [Reading],
    other: &'a Reading,
    id: &Id,
) -> &'a Reading
    requires { Ascend ids.now }
    ensures { (f : List ℕ → ReadingLists) → readings.now ≡ map f ids.now
        → has ids.now id.now ≡ true → result.now ≡ f id.now }
{
    match index_among(ids, id) {
        Some(at) => reading_at(readings, other, at),
        None => other,
    }
}

fn reading_at<'a>(readings: &'a [Reading], other: &'a Reading, at: usize) -> &'a Reading
    ensures { (reading : ReadingLists) → slice_get readings.now at ≡ Some reading → result.now ≡ reading }
{
    match readings.get(at) {
        Some(reading) => reading,
        None => other,
    }
}

/// Finds what there is of the SYSMODs that the chosen plans of some resolvers have together.
pub(crate) fn find<P: Published, J: Judge<P>>(
    alloc: Global,
    source: &mut P,
    judge: &mut J,
    zone: &Zone,
    chosen: &[Id],
) -> Result<Findings, SourceFault>
    ensures asks { MayAsk P.content_view Device source.old source.new result }
    ensures findings { IfOk result (λ findings. Tells P.content_view source.old source.new
        (λ content. J.is_right judge.old content
        → findings ≡ findings_of content zone.now (united content zone.now chosen.now))) }
    ensures right { Tells P.content_view source.old source.new
        (λ content. J.is_right judge.old content → J.is_right judge.new content) }
{
    let ids = judge.united(alloc, source, zone, chosen)?;
    let readings = readings(alloc, source, zone, &ids)?;
    let asked = needs_of_all(alloc, &readings)?;
    let answers = judge.candidates(alloc, source, zone, &asked)?;
    let givers = givers_of_all(alloc, source, judge, zone, &ids)?;
    Ok(Findings {
        ids,
        readings,
        givers,
        asked,
        answers,
    })
}
