//! Answers on many SYSMODs at once.
ghost use Rattle.std.specs.Prelude.{◌≡◌, ◌<◌, ℕ, IfOk, IfSome, OnOk, Some, length, map, slice_get, take};
ghost use Rattle.catalogue.specs.Ids.{Ascend};
ghost use Rattle.catalogue.specs.View.{MayAsk, Tells};
ghost use Rattle.catalogue.specs.declared.fault.SourceFault.TheVariants.{Device};
ghost use Rattle.chain_cache.specs.Cache.{AreBounded, AreFilled, IsFresh, IsRightFor, KeepsFrames};
ghost use Rattle.chains.specs.Surveys.{SurveyLists};
ghost use Rattle.verdicts.specs.Judge as judge;
ghost use Rattle.verdicts.specs.United.{united};
ghost use Rattle.verdicts.specs.Verdicts.{verdict_of};

use crate::ChainCache;
use crate::cache::NODES_MOST;
use catalogue::{Published, SourceFault};
use chains::Survey;
use mcs_reader::Id;
use std::alloc::Global;
use std::collections::BTreeSet;
use supersede::Zone;
use verdicts::{Status, listed, put_plan};

// The number of nodes that each of several SYSMODs adds to the room for their frames.
const NODES_EACH: usize = 8;

// The most SYSMODs that are judged from frames at once.
const FEW: usize = 256;

impl ChainCache {
    /// Whether a survey judges these SYSMODs, and no frame is tried: they are many, or frames were too large for
    /// no more of them.
    pub(crate) fn is_for_survey(&self, ids: &[Id]) -> bool {
        ids.len() > FEW || self.surveys.is_wide(ids.len())
    }

    /// Finds the survey of a zone with these rows, if it is kept. It counts as used.
    pub(crate) fn find_survey(&mut self, zone: &Zone) -> Option<usize>
        ensures same { self.new ≡ self.old }
        ensures within { IfSome result (λ at. at < length self.old.surveys.zones) }
        ensures found { IfSome result (λ at. (survey : SurveyLists)
            × (slice_get self.old.surveys.zones at ≡ Some (record { rows = zone.now; survey = survey }))) }
        ensures bounded { AreBounded self.new.surveys }
    {
        self.surveys.find(zone)
    }

    /// The survey that stands there.
    pub(crate) fn survey_at(&self, at: usize) -> &Survey
        requires { at < length self.now.surveys.zones }
        ensures { IfSome (slice_get self.now.surveys.zones at) (λ kept. result.now ≡ kept.survey) }
    {
        self.surveys.at(at)
    }

    /// Remembers that frames were too large for so many SYSMODs.
    pub(crate) fn put_wide(&mut self, count: usize)
        ensures { self.new ≡ self.old }
    {
        self.surveys.put_wide(count);
    }

    /// Reads the listing if many SYSMODs are asked for and it isn't kept or has marks.
    pub(crate) fn read_for_many<P: Published>(
        &mut self,
        alloc: Global,
        source: &mut P,
        ids: &[Id],
    ) -> Result<(), SourceFault>
        ensures asks { MayAsk P.content_view Device source.old source.new result }
        ensures right { Tells P.content_view source.old source.new
            (λ content. IsRightFor self.old content → IsRightFor self.new content) }
        ensures fresh { 256 < length ids.now → OnOk result (IsFresh self.new.surveys) }
        ensures frames { KeepsFrames self.old self.new }
        ensures bounded { AreBounded self.new.surveys }
    {
        self.surveys.read_if(alloc, source, ids.len() > FEW)
    }

    /// Gives the status of each SYSMOD, by a survey of the zone, which it keeps.
    pub(crate) fn statuses_by_survey<P: Published>(
        &mut self,
        alloc: Global,
        source: &mut P,
        zone: &Zone,
        ids: &[Id],
    ) -> Result<Vec<Status>, SourceFault>
        ensures asks { MayAsk P.content_view Device source.old source.new result }
        ensures statuses { IfOk result (λ statuses. Tells P.content_view source.old source.new
            (λ content. IsRightFor self.old content
            → statuses.items ≡ map (λ id. judge.status_of (verdict_of content zone.now id)) ids.now)) }
        ensures right { Tells P.content_view source.old source.new
            (λ content. IsRightFor self.old content → IsRightFor self.new content) }
        ensures frames { KeepsFrames self.old self.new }
        ensures bounded { AreBounded self.new.surveys }
    {
        self.surveys.read_listing(alloc, source)?;
        let survey = self.surveys.survey(alloc, zone)?;
        let statuses = survey.statuses(alloc, ids)?;
        self.surveys.keep(zone, survey);
        Ok(statuses)
    }

    /// The same from frames, if all of them together are small.
    pub(crate) fn statuses_by_frames<P: Published>(
        &mut self,
        alloc: Global,
        source: &mut P,
        zone: &Zone,
        ids: &[Id],
    ) -> Result<Option<Vec<Status>>, SourceFault>
        ensures asks { MayAsk P.content_view Device source.old source.new result }
        ensures statuses { IfOk result (λ found. IfSome found
            (λ statuses. Tells P.content_view source.old source.new
            (λ content. IsRightFor self.old content
            → statuses.items ≡ map (λ id. judge.status_of (verdict_of content zone.now id)) ids.now))) }
        ensures right { Tells P.content_view source.old source.new
            (λ content. IsRightFor self.old content → IsRightFor self.new content) }
        ensures filled { (n : ℕ) × AreFilled (take n ids.now) self.old self.new }
    {
        let mut statuses = Vec::with_capacity(alloc, ids.len())?;
        let mut room = NODES_MOST;
        for id in ids {
            let is_first = self.fill_small(alloc, source, id, room)?;
            if !is_first {
                return Ok(None);
            }
            room = room
                .saturating_sub(self.first_len())
                .saturating_add(NODES_EACH);
            statuses.push(self.first_verdict(alloc, zone, id)?.status())?;
        }
        Ok(Some(statuses))
    }

    /// Finds all members of the chosen plans of some SYSMODs, ascending, by a survey of the zone, which it keeps.
    pub(crate) fn united_by_survey<P: Published>(
        &mut self,
        alloc: Global,
        source: &mut P,
        zone: &Zone,
        ids: &[Id],
    ) -> Result<Vec<Id>, SourceFault>
        ensures asks { MayAsk P.content_view Device source.old source.new result }
        ensures united { IfOk result (λ found. Tells P.content_view source.old source.new
            (λ content. IsRightFor self.old content → found.items ≡ united content zone.now ids.now)) }
        ensures ascend { IfOk result (λ found. Ascend found.items) }
        ensures right { Tells P.content_view source.old source.new
            (λ content. IsRightFor self.old content → IsRightFor self.new content) }
        ensures frames { KeepsFrames self.old self.new }
        ensures bounded { AreBounded self.new.surveys }
    {
        self.surveys.read_listing(alloc, source)?;
        let survey = self.surveys.survey(alloc, zone)?;
        let found = survey.united(alloc, ids)?;
        self.surveys.keep(zone, survey);
        Ok(found)
    }

    /// The same from frames, if all of them together are small.
    pub(crate) fn united_by_frames<P: Published>(
        &mut self,
        alloc: Global,
        source: &mut P,
        zone: &Zone,
        ids: &[Id],
    ) -> Result<Option<Vec<Id>>, SourceFault>
        ensures asks { MayAsk P.content_view Device source.old source.new result }
        ensures united { IfOk result (λ answer. IfSome answer
            (λ found. Tells P.content_view source.old source.new
            (λ content. IsRightFor self.old content → found.items ≡ united content zone.now ids.now))) }
        ensures ascend { IfOk result (λ answer. IfSome answer (λ found. Ascend found.items)) }
        ensures right { Tells P.content_view source.old source.new
            (λ content. IsRightFor self.old content → IsRightFor self.new content) }
        ensures filled { (n : ℕ) × AreFilled (take n ids.now) self.old self.new }
    {
        let mut found = BTreeSet::new(alloc);
        let mut room = NODES_MOST;
        for id in ids {
            let stands_first = self.fill_small(alloc, source, id, room)?;
            if !stands_first {
                return Ok(None);
            }
            room = room
                .saturating_sub(self.first_len())
                .saturating_add(NODES_EACH);
            let verdict = self.first_verdict(alloc, zone, id)?;
            put_plan(&mut found, &verdict)?;
        }
        Ok(Some(listed(alloc, found)?))
    }
}
