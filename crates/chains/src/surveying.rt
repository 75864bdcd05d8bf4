//! All verdicts of one zone.
ghost use Rattle.std.specs.Prelude.{◌≡◌, List, IfOk, length, map};
ghost use Rattle.catalogue.specs.Content.{Content};
ghost use Rattle.catalogue.specs.Ids.{Ascend};
ghost use Rattle.catalogue.specs.View.{MayAsk, Tells};
ghost use Rattle.catalogue.specs.declared.fault.SourceFault.TheVariants.{Device};
ghost use Rattle.listings.specs.SeenIndices.{AreNodesWithin};
ghost use Rattle.verdicts.specs.Judge as judge;
ghost use Rattle.listings.specs.Sights.{IsListing};
ghost use Rattle.chains.specs.Surveys.{IsSurvey, status_by};
ghost use Rattle.verdicts.specs.United.{united};
ghost use Rattle.verdicts.specs.Verdicts.{verdict_of};
ghost use Rattle.zone_lists.specs.declared.zones.ZoneRow.{ZoneRow};

use crate::node_verdicts::by_ids;
use catalogue::{Published, SourceFault};
use listings::{Listing, ZoneNodes, zone_nodes_of};
use mcs_reader::{Id, NoMemory};
use requisites::{Resolution, chosen_plans, is_marked, resolve, verdict_of_node};
use std::alloc::Global;
use std::marker::Model;
use supersede::Zone;
use verdicts::{Status, Verdict, ids_at, index_of, put_indices};

/// The verdicts on all that is catalogued, in one zone. Each can be read from it as long as the content and the
/// zone stay the same.
#[derive(Debug, Drop)]
pub struct Survey {
    cut: ZoneNodes,
    resolution: Resolution,
}

impl Model for Survey {
    ghost use Rattle.chains.specs.Surveys.{IsResolved, SurveyLists};

    ghost Value = { SurveyLists };

    ghost view = { λ survey. record { members = survey.cut.members.items; nodes = survey.cut.nodes } };

    ghost invariant = { λ survey. IsResolved survey.cut.members.items survey.cut.nodes
        survey.resolution.good.items survey.resolution.givers.items };
}

impl Survey {
    /// Makes the survey of a zone by a listing. It reads nothing.
    ///
    /// # Errors
    ///
    /// `NoMemory` if memory ran out.
    pub fn of(alloc: Global, zone: &Zone, listing: &Listing) -> Result<Survey, NoMemory>
        ensures { IfOk result (λ survey. (content : Content) → IsListing content listing.now
            → IsSurvey content zone.now survey) }
    {
        let cut = ZoneNodes::of_listing(alloc, zone, listing)?;
        Survey::resolved(alloc, cut)
    }

    // Makes the survey by the nodes of a zone.
    fn resolved(alloc: Global, cut: ZoneNodes) -> Result<Survey, NoMemory>
        requires ascend { Ascend cut.members.items }
        requires within { AreNodesWithin cut.members.items cut.nodes }
        ensures { IfOk result (λ survey. survey ≡ (record {
          members = cut.members.items;
          nodes = cut.nodes;
        })) }
    {
        let resolution = resolve(alloc, &cut.nodes)?;
        Ok(Survey { cut, resolution })
    }

    /// The number of ids that it has verdicts on.
    pub fn count(&self) -> usize
        ensures { result ≡ length self.now.members }
    {
        self.cut.members.len()
    }

    /// Gives the verdict on a SYSMOD.
    ///
    /// # Errors
    ///
    /// `NoMemory` if memory ran out.
    pub fn verdict(&self, alloc: Global, id: &Id) -> Result<Verdict, NoMemory>
        ensures { IfOk result (λ verdict. (content : Content) (rows : List ZoneRow)
            → IsSurvey content rows self.now
            → judge.judged_by verdict ≡ verdict_of content rows id.now) }
    {
        let Some(index) = index_of(&self.cut.members, id) else {
            return Ok(Verdict::Lack);
        };
        let verdict = verdict_of_node(alloc, &self.cut.nodes, &self.resolution, index)?;
        by_ids(alloc, &self.cut.members, verdict)
    }

    /// Gives the status of each SYSMOD, in the order of the list.
    ///
    /// # Errors
    ///
    /// `NoMemory` if memory ran out.
    pub fn statuses(&self, alloc: Global, ids: &[Id]) -> Result<Vec<Status>, NoMemory>
        ensures { IfOk result (λ statuses. (content : Content) (rows : List ZoneRow)
            → IsSurvey content rows self.now
            → statuses.items ≡ map (λ id. judge.status_of (verdict_of content rows id)) ids.now) }
    {
        let mut statuses = Vec::with_capacity(alloc, ids.len())?;
        for id in ids {
            statuses.push(self.status(id))?;
        }
        Ok(statuses)
    }

    /// The status of a SYSMOD. It takes no memory.
    pub fn status(&self, id: &Id) -> Status
        ensures { (content : Content) (rows : List ZoneRow) → IsSurvey content rows self.now
            → result ≡ judge.status_of (verdict_of content rows id.now) }
    {
        let Some(index) = index_of(&self.cut.members, id) else {
            return Status::Lack;
        };
        let good = is_marked(&self.resolution.good, index);
        let candidate = is_marked(&self.cut.nodes.candidates, index);
        status_by(good, candidate)
    }

    /// Finds all members of the chosen plans of some SYSMODs, ascending, each once, by one walk from all of them.
    ///
    /// # Errors
    ///
    /// `NoMemory` if memory ran out.
    pub fn united(&self, alloc: Global, ids: &[Id]) -> Result<Vec<Id>, NoMemory>
        ensures united { IfOk result (λ found. (content : Content) (rows : List ZoneRow)
            → IsSurvey content rows self.now → found.items ≡ united content rows ids.now) }
        ensures ascend { IfOk result (λ found. Ascend found.items) }
    {
        let mut starts = Vec::with_capacity(alloc, ids.len())?;
        put_indices(&mut starts, &self.cut.members, 0, ids)?;
        let plans = chosen_plans(alloc, &self.cut.nodes, &self.resolution, &starts)?;
        ids_at(alloc, &self.cut.members, &plans)
    }
}

// The status, by the marks of a node.
fn status_by(good: bool, candidate: bool) -> Status
    ensures { result ≡ status_by good candidate }
{
    if good {
        return Status::Good;
    }
    if candidate {
        return Status::Held;
    }
    Status::Lack
}

/// Reads the survey of a zone: all that is catalogued, in runs. What was read of a run goes before the next.
///
/// # Errors
///
/// `Memory` if memory ran out, `Device` if the source failed.
pub fn survey_of<P: Published>(
    alloc: Global,
    source: &mut P,
    zone: &Zone,
) -> Result<Survey, SourceFault>
    ensures asks { MayAsk P.content_view Device source.old source.new result }
    ensures survey { IfOk result (λ survey. Tells P.content_view source.old source.new
        (λ content. IsSurvey content zone.now survey)) }
{
    let cut = zone_nodes_of(alloc, source, zone)?;
    Ok(Survey::resolved(alloc, cut)?)
}
