//! The cache of frames and surveys.
ghost use Rattle.std.specs.Prelude.{◌≡◌, ◌<◌, ◌≤◌, [], ℕ, true, false, IfOk, IsSome, OnOk, OnErr, Some, length, map, option_map, slice_get, take};
ghost use Rattle.std.specs.Borrow.{sem};
ghost use Rattle.std.specs.Map.Iter.{ShowsInOrder, deref_pair};
ghost use Rattle.catalogue.specs.Content.{Content, IsInOrder};
ghost use Rattle.catalogue.specs.Ids.{Ascend};
ghost use Rattle.catalogue.specs.Touched.{AgreeOutside};
ghost use Rattle.catalogue.specs.View.{MayAsk, Tells};
ghost use Rattle.catalogue.specs.declared.fault.SourceFault.TheVariants.{Device};
ghost use Rattle.chain_cache.specs.Cache.{AreBounded, AreFilled, CacheLists, IsAsked, IsFilled, IsFresh, IsRightFor, KeepsFrames, MayBeMarked, after_hit, has, nothing_surveyed, untouched};
ghost use Rattle.chain_cache.specs.Lent.{ends_filled};
ghost use Rattle.verdicts.specs.Candidates.{candidates_unless_there};
ghost use Rattle.chains.specs.Frames.{FrameLists, IsFrame};
ghost use Rattle.verdicts.specs.Judge as judge;
ghost use Rattle.verdicts.specs.United.{united};
ghost use Rattle.verdicts.specs.Verdicts.{verdict_of};

use crate::dropping::drop_among;
use crate::surveys::Surveys;
use catalogue::{Published, SourceFault};
use chains::{Frame, frame, frame_within, plan};
use lru::{Iter, LruCache};
use mcs_reader::{Id, NoMemory};
use std::alloc::Global;
use std::hash::RandomState;
use std::marker::Model;
use std::num::NonZeroUsize;
use supersede::Zone;
use verdicts::{Judge, Status, Verdict};

/// Frames by their ids, the one that was used last first.
pub(crate) type Frames = LruCache<Id, Frame, RandomState>;

/// The most nodes of a frame that is kept for a chain.
pub(crate) const NODES_MOST: usize = 256;

/// Judges from frames, and keeps those that were used last. All callers share them: a frame names no zone and no
/// client.
///
/// A SYSMOD that reaches far has a large frame. So if a chain has more than 256 nodes, or a report has many SYSMODs,
/// the cache looks over the whole zone. For that it reads once what is catalogued, whatever the zone. It keeps this
/// listing over publications: it marks the ids that they touch, and reads them anew before the next survey. It finds
/// candidates in the listing, and asks the source for ids that are marked. If many SYSMODs are asked for, it reads the
/// listing first. Until the next publication it keeps the surveys of zones,
/// those that were used last: as many as take 256 MiB.
#[derive(Debug, Drop)]
pub struct ChainCache {
    frames: Frames,
    built: u64,
    pub(crate) surveys: Surveys,
}

impl Model for ChainCache {
    ghost use Rattle.chain_cache.specs.Cache.{AreBounded, CacheLists};

    ghost Value = { CacheLists };

    ghost view = { λ cache. record {
      entries = cache.frames.entries;
      capacity = cache.frames.cap;
      built = cache.built;
      surveys = cache.surveys;
    } };

    ghost invariant = { λ cache. AreBounded cache.surveys };
}

impl ChainCache {
    /// A cache with room for so many frames. It keeps none yet, so it is right for every content. Clients choose the
    /// ids by which it looks frames up, so the hasher has random keys.
    ///
    /// # Errors
    ///
    /// `NoMemory` if memory ran out.
    pub fn new(alloc: Global, capacity: u32, hasher: RandomState) -> Result<Self, NoMemory>
        requires least { 1 ≤ capacity }
        requires most { capacity ≤ 65536 }
        ensures entries { IfOk result (λ cache. cache.entries ≡ []) }
        ensures capacity { IfOk result (λ cache. cache.capacity ≡ capacity) }
        ensures built { IfOk result (λ cache. cache.built ≡ 0) }
        ensures surveys { IfOk result (λ cache. cache.surveys ≡ nothing_surveyed) }
        ensures right { IfOk result (λ cache. (content : Content) → IsRightFor cache content) }
    {
        let Some(room) = NonZeroUsize::new(capacity as usize) else {
            unreachable!()
        };
        let frames = LruCache::with_hasher(alloc, room, hasher)?;
        Ok(ChainCache {
            frames,
            built: 0,
            surveys: Surveys::new(alloc),
        })
    }

    /// The number of frames that were put so far. The count stays at its greatest number.
    pub fn built(&self) -> u64
        ensures { result ≡ self.now.built }
    {
        self.built
    }

    /// The frames that are kept, each with its id, in their order.
    pub fn iter(&self) -> Iter<'_, Id, Frame>
        ensures rest { result ≡ self.now.entries }
        ensures runs { ShowsInOrder (deref_pair {K = Id} {X = Frame}) }
    {
        self.frames.iter()
    }

    /// Returns the frame of a SYSMOD, catalogued or not: the one that is kept, or else one that is built and put. It
    /// stands first afterwards.
    ///
    /// # Errors
    ///
    /// `Memory` if memory ran out, `Device` if the source failed. The cache is as it was.
    pub fn frame_for<P: Published>(
        &mut self,
        alloc: Global,
        source: &mut P,
        id: &Id,
    ) -> Result<&Frame, SourceFault>
        ensures* filled { sem 𝓛 (ends_filled self.entry id.now result) }
        ensures asks { MayAsk P.content_view Device source.old source.new result }
        ensures frame { IfOk result (λ frame. Tells P.content_view source.old source.new
            (λ content. IsRightFor self.old content → IsFrame content id.now frame.now)) }
    {
        self.fill(alloc, source, id)?;
        match self.frames.peek_mru() {
            Some((_, frame)) => Ok(frame),
            None => unreachable!(),
        }
    }

    // Makes the frame of an id stand first: the one that is kept, or else one that is built.
    fn fill<P: Published>(
        &mut self,
        alloc: Global,
        source: &mut P,
        id: &Id,
    ) -> Result<(), SourceFault>
        ensures asks { MayAsk P.content_view Device source.old source.new result }
        ensures filled { OnOk result ((frame : FrameLists) × IsFilled id.now frame self.old self.new) }
        ensures right { Tells P.content_view source.old source.new
            (λ content. IsRightFor self.old content → IsRightFor self.new content) }
        ensures err { OnErr result (self.new ≡ self.old) }
    {
        if self.use_kept(id) {
            return Ok(());
        }
        let built = frame(alloc, source, id)?;
        Ok(self.put(id, built)?)
    }

    /// The same, if the frame is kept or has at most so many nodes. Returns whether it stands first then; else all is
    /// as it was.
    pub(crate) fn fill_small<P: Published>(
        &mut self,
        alloc: Global,
        source: &mut P,
        id: &Id,
        most: usize,
    ) -> Result<bool, SourceFault>
        ensures asks { MayAsk P.content_view Device source.old source.new result }
        ensures filled { IfOk result
            (λ is. is ≡ true → (frame : FrameLists) × IsFilled id.now frame self.old self.new) }
        ensures same { IfOk result (λ is. is ≡ false → self.new ≡ self.old) }
        ensures right { Tells P.content_view source.old source.new
            (λ content. IsRightFor self.old content → IsRightFor self.new content) }
        ensures err { OnErr result (self.new ≡ self.old) }
        ensures bounded { AreBounded self.new.surveys }
    {
        if self.use_kept(id) {
            return Ok(true);
        }
        match frame_within(alloc, source, id, most)? {
            Some(built) => {
                self.put(id, built)?;
                Ok(true)
            }
            None => Ok(false),
        }
    }

    // Makes the frame of an id stand first, if it is kept. Returns whether it is.
    fn use_kept(&mut self, id: &Id) -> bool
        ensures kept { result ≡ has self.old.entries id.now }
        ensures hit { result ≡ true → self.new ≡ after_hit id.now self.old }
        ensures filled { result ≡ true → (frame : FrameLists) × IsFilled id.now frame self.old self.new }
        ensures same { result ≡ false → self.new ≡ self.old }
        ensures right { (content : Content) → IsRightFor self.old content → IsRightFor self.new content }
        ensures bounded { AreBounded self.new.surveys }
    {
        self.frames.promote(id)
    }

    // Puts the frame of an id that has none. It stands first then.
    fn put(&mut self, id: &Id, built: Frame) -> Result<(), NoMemory>
        requires { has self.now.entries id.now ≡ false }
        ensures filled { OnOk result (IsFilled id.now built self.old self.new) }
        ensures right { OnOk result ((content : Content) → IsRightFor self.old content
            → IsFrame content id.now built → IsRightFor self.new content) }
        ensures err { OnErr result (self.new ≡ self.old) }
    {
        self.frames.put(*id, built)?;
        self.built = self.built.saturating_add(1);
        Ok(())
    }

    /// The number of nodes of the frame that stands first.
    pub(crate) fn first_len(&self) -> usize {
        match self.frames.peek_mru() {
            Some((_, frame)) => frame.nodes().len(),
            None => 0,
        }
    }

    /// The verdict from the frame that stands first.
    pub(crate) fn first_verdict(
        &self,
        alloc: Global,
        zone: &Zone,
        id: &Id,
    ) -> Result<Verdict, NoMemory>
        requires { IsSome (slice_get self.now.entries 0) }
        ensures { IfOk result (λ verdict. (frame : FrameLists) (content : Content)
            → slice_get self.now.entries 0 ≡ Some (id.now, frame) → IsFrame content id.now frame
            → judge.judged_by verdict ≡ verdict_of content zone.now id.now) }
    {
        let Some((_, frame)) = self.frames.peek_mru() else {
            unreachable!()
        };
        plan(alloc, frame, zone, id)
    }
}

impl ChainCache {
    // The verdict by a survey of the zone, which it keeps.
    fn verdict_by_survey<P: Published>(
        &mut self,
        alloc: Global,
        source: &mut P,
        zone: &Zone,
        id: &Id,
    ) -> Result<Verdict, SourceFault>
        ensures asks { MayAsk P.content_view Device source.old source.new result }
        ensures verdict { IfOk result (λ verdict. Tells P.content_view source.old source.new
            (λ content. IsRightFor self.old content
            → judge.judged_by verdict ≡ verdict_of content zone.now id.now)) }
        ensures right { Tells P.content_view source.old source.new
            (λ content. IsRightFor self.old content → IsRightFor self.new content) }
        ensures frames { KeepsFrames self.old self.new }
        ensures bounded { AreBounded self.new.surveys }
    {
        self.surveys.read_listing(alloc, source)?;
        let survey = self.surveys.survey(alloc, zone)?;
        let verdict = survey.verdict(alloc, id)?;
        self.surveys.keep(zone, survey);
        Ok(verdict)
    }
}

impl<P: Published> Judge<P> for ChainCache {
    ghost use Rattle.chain_cache.specs.Cache.{IsRightFor};

    ghost is_right = { IsRightFor };

    // By the frame, if it is kept or small; else by a survey of the zone.
    fn verdict(
        &mut self,
        alloc: Global,
        source: &mut P,
        zone: &Zone,
        id: &Id,
    ) -> Result<Verdict, SourceFault>
        ensures asks { MayAsk P.content_view Device source.old source.new result }
        ensures verdict { IfOk result (λ verdict. Tells P.content_view source.old source.new
            (λ content. IsRightFor self.old content
            → judge.judged_by verdict ≡ verdict_of content zone.now id.now)) }
        ensures right { Tells P.content_view source.old source.new
            (λ content. IsRightFor self.old content → IsRightFor self.new content) }
        ensures asked { IsAsked id.now self.old self.new }
        ensures bounded { AreBounded self.new.surveys }
    {
        if self.use_kept(id) {
            return Ok(self.first_verdict(alloc, zone, id)?);
        }
        if let Some(at) = self.find_survey(zone) {
            return Ok(self.survey_at(at).verdict(alloc, id)?);
        }
        let is_first = self.fill_small(alloc, source, id, NODES_MOST)?;
        if is_first {
            return Ok(self.first_verdict(alloc, zone, id)?);
        }
        self.verdict_by_survey(alloc, source, zone, id)
    }

    // By a survey of the zone if one is kept, else by frames while these are small. If they are large, the candidates
    // of a report mostly share them, and one pass over the catalogue costs less than a frame for each.
    fn statuses(
        &mut self,
        alloc: Global,
        source: &mut P,
        zone: &Zone,
        ids: &[Id],
    ) -> Result<Vec<Status>, SourceFault>
        ensures asks { MayAsk P.content_view Device source.old source.new result }
        ensures statuses { IfOk result (λ statuses. Tells P.content_view source.old source.new
            (λ content. IsRightFor self.old content
            → statuses.items ≡ map (λ id. judge.status_of (verdict_of content zone.now id)) ids.now)) }
        ensures right { Tells P.content_view source.old source.new
            (λ content. IsRightFor self.old content → IsRightFor self.new content) }
        ensures filled { (n : ℕ) × (between : CacheLists) × AreFilled (take n ids.now) self.old between
            × KeepsFrames between self.new }
        ensures bounded { AreBounded self.new.surveys }
    {
        if let Some(at) = self.find_survey(zone) {
            return Ok(self.survey_at(at).statuses(alloc, ids)?);
        }
        if self.is_for_survey(ids) {
            return self.statuses_by_survey(alloc, source, zone, ids);
        }
        match self.statuses_by_frames(alloc, source, zone, ids)? {
            Some(statuses) => Ok(statuses),
            None => {
                let statuses = self.statuses_by_survey(alloc, source, zone, ids)?;
                self.put_wide(ids.len());
                Ok(statuses)
            }
        }
    }

    fn drop_touched(&mut self, ids: &[Id])
        ensures stays { (content : Content) → IsRightFor self.old content → IsRightFor self.new content }
        ensures right { (old new : Content) → IsInOrder old → IsInOrder new → IsRightFor self.old old
            → AgreeOutside ids.now old new → IsRightFor self.new new }
        ensures kept { self.new.entries ≡ untouched ids.now self.old.entries }
        ensures capacity { self.new.capacity ≡ self.old.capacity }
        ensures built { self.new.built ≡ self.old.built }
        ensures surveys { MayBeMarked ids.now self.old.surveys self.new.surveys }
    {
        drop_among(&mut self.frames, ids);
        self.surveys.mark(ids);
    }

    fn united(
        &mut self,
        alloc: Global,
        source: &mut P,
        zone: &Zone,
        ids: &[Id],
    ) -> Result<Vec<Id>, SourceFault>
        ensures asks { MayAsk P.content_view Device source.old source.new result }
        ensures united { IfOk result (λ found. Tells P.content_view source.old source.new
            (λ content. IsRightFor self.old content → found.items ≡ united content zone.now ids.now)) }
        ensures ascend { IfOk result (λ found. Ascend found.items) }
        ensures right { Tells P.content_view source.old source.new
            (λ content. IsRightFor self.old content → IsRightFor self.new content) }
        ensures filled { (n : ℕ) × (between : CacheLists) × AreFilled (take n ids.now) self.old between
            × KeepsFrames between self.new }
        ensures bounded { AreBounded self.new.surveys }
    {
        if let Some(at) = self.find_survey(zone) {
            return Ok(self.survey_at(at).united(alloc, ids)?);
        }
        if self.is_for_survey(ids) {
            return self.united_by_survey(alloc, source, zone, ids);
        }
        match self.united_by_frames(alloc, source, zone, ids)? {
            Some(found) => Ok(found),
            None => {
                let found = self.united_by_survey(alloc, source, zone, ids)?;
                self.put_wide(ids.len());
                Ok(found)
            }
        }
    }

    // In the listing. If many are asked for, it is read first: the statuses that follow mostly need it.
    fn candidates(
        &mut self,
        alloc: Global,
        source: &mut P,
        zone: &Zone,
        ids: &[Id],
    ) -> Result<Vec<Option<Vec<Id>>>, SourceFault>
        ensures asks { MayAsk P.content_view Device source.old source.new result }
        ensures candidates { IfOk result (λ found. Tells P.content_view source.old source.new
            (λ content. IsRightFor self.old content → map (option_map (λ ids. ids.items)) found.items
            ≡ map (candidates_unless_there content zone.now) ids.now)) }
        ensures right { Tells P.content_view source.old source.new
            (λ content. IsRightFor self.old content → IsRightFor self.new content) }
        ensures fresh { 256 < length ids.now → OnOk result (IsFresh self.new.surveys) }
        ensures frames { KeepsFrames self.old self.new }
        ensures bounded { AreBounded self.new.surveys }
    {
        self.read_for_many(alloc, source, ids)?;
        self.surveys.candidates(alloc, source, zone, ids)
    }
}
