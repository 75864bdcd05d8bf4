//! The parts of the cache on the whole catalogue: the listing that was read, and surveys of zones.
ghost use Rattle.std.specs.Prelude.{◌≡◌, ◌<◌, ◌++◌, true, IfOk, Some, IfSome, IsSome, OnOk, length, map, option_map, slice_get};
ghost use Rattle.catalogue.specs.Content.{Content};
ghost use Rattle.catalogue.specs.Ids.{Ascend, in_order};
ghost use Rattle.catalogue.specs.Seen.{seen_in};
ghost use Rattle.catalogue.specs.View.{MayAsk, Tells};
ghost use Rattle.catalogue.specs.declared.fault.SourceFault.TheVariants.{Device};
ghost use Rattle.chain_cache.specs.Cache.{AreBounded, AreSurveys, IsFresh, MayBeMarked, nothing_surveyed};
ghost use Rattle.verdicts.specs.Candidates.{candidates_unless_there};
ghost use Rattle.listings.specs.Marks.{IsAtHand};
ghost use Rattle.chains.specs.Surveys.{IsSurvey, SurveyLists};

use crate::kept_surveys::KeptSurveys;
use catalogue::{Published, Seen, SourceFault};
use chains::{Listing, Survey, candidates_for, listing_of};
use mcs_reader::{Id, NoMemory};
use std::alloc::Global;
use std::marker::Model;
use supersede::Zone;
use verdicts::sort_each_once;

// The most ids that are marked in the listing. A publication of some hundred SYSMODs touches so many.
const MARKS_MOST: usize = 2048;

/// The listing, if it was read, and surveys of zones.
#[derive(Debug, Drop)]
pub(crate) struct Surveys {
    listing: Option<Listing>,
    // The ids that were touched since the listing was read. Room for them is made with the listing.
    marks: Vec<Id>,
    kept: KeptSurveys,
    // The least number of SYSMODs for which frames were too large since the last publication, if they were. It decides
    // only what is tried first.
    wide_from: Option<usize>,
}

impl Model for Surveys {
    ghost use Rattle.chain_cache.specs.Cache.{SurveyedLists};

    ghost Value = { SurveyedLists };

    ghost view = { λ surveys. record {
      listing = surveys.listing;
      marks = surveys.marks.items;
      zones = surveys.kept;
    } };
}

impl Surveys {
    /// Nothing yet.
    pub(crate) fn new(alloc: Global) -> Self
        ensures { result ≡ nothing_surveyed }
    {
        Surveys {
            listing: None,
            marks: Vec::new(alloc),
            kept: KeptSurveys::new(alloc),
            wide_from: None,
        }
    }

    /// Finds the survey of a zone with these rows, if it is kept. It counts as used.
    pub(crate) fn find(&mut self, zone: &Zone) -> Option<usize>
        ensures same { self.new ≡ self.old }
        ensures within { IfSome result (λ at. at < length self.old.zones) }
        ensures found { IfSome result (λ at. (survey : SurveyLists)
            × (slice_get self.old.zones at ≡ Some (record { rows = zone.now; survey = survey }))) }
    {
        self.kept.find(zone)
    }

    /// The survey that stands there.
    pub(crate) fn at(&self, at: usize) -> &Survey
        requires { at < length self.now.zones }
        ensures { IfSome (slice_get self.now.zones at) (λ kept. result.now ≡ kept.survey) }
    {
        self.kept.at(at)
    }

    /// Whether a listing is kept, and frames were too large for no more SYSMODs than these.
    pub(crate) fn is_wide(&self, count: usize) -> bool {
        match self.wide_from {
            Some(least) => least <= count && self.listing.is_some(),
            None => false,
        }
    }

    /// Remembers that frames were too large for so many SYSMODs.
    pub(crate) fn put_wide(&mut self, count: usize)
        ensures { self.new ≡ self.old }
    {
        self.wide_from = match self.wide_from {
            Some(least) => Some(least.min(count)),
            None => Some(count),
        };
    }

    /// Finds for each of some SYSMODs the candidates that give it, in the listing (see [`candidates_for`]). It asks the
    /// source for ids that are marked, and for all if no listing is kept.
    pub(crate) fn candidates<P: Published>(
        &self,
        alloc: Global,
        source: &mut P,
        zone: &Zone,
        ids: &[Id],
    ) -> Result<Vec<Option<Vec<Id>>>, SourceFault>
        ensures asks { MayAsk P.content_view Device source.old source.new result }
        ensures candidates { IfOk result (λ found. Tells P.content_view source.old source.new
            (λ content. AreSurveys content self.now → map (option_map (λ ids. ids.items)) found.items
            ≡ map (candidates_unless_there content zone.now) ids.now)) }
    {
        let marks = self.marks_in_order(alloc)?;
        candidates_for(alloc, source, self.listing(), &marks, zone, ids)
    }

    // The listing, if one is kept: it says all but what is marked.
    #[tactic(auto, using(crate::proofs::SurveyFacts::at_hand_in_order))]
    fn listing(&self) -> Option<&Listing>
        ensures { (content : Content) → AreSurveys content self.now
            → IsAtHand content result (in_order self.now.marks) }
    {
        self.listing.as_ref()
    }

    /// Reads the listing if none is kept, or else the ids that are marked in it, and keeps it.
    pub(crate) fn read_listing<P: Published>(
        &mut self,
        alloc: Global,
        source: &mut P,
    ) -> Result<(), SourceFault>
        ensures asks { MayAsk P.content_view Device source.old source.new result }
        ensures right { Tells P.content_view source.old source.new
            (λ content. AreSurveys content self.old → AreSurveys content self.new) }
        ensures fresh { OnOk result (IsFresh self.new) }
        ensures zones { self.new.zones ≡ self.old.zones }
    {
        if self.listing.is_some() {
            return self.renew(alloc, source);
        }
        let marks = Vec::with_capacity(alloc, MARKS_MOST)?;
        let listing = listing_of(alloc, source)?;
        self.put_listing(listing, marks);
        Ok(())
    }

    /// The same, if it is wanted.
    pub(crate) fn read_if<P: Published>(
        &mut self,
        alloc: Global,
        source: &mut P,
        is_wanted: bool,
    ) -> Result<(), SourceFault>
        ensures asks { MayAsk P.content_view Device source.old source.new result }
        ensures right { Tells P.content_view source.old source.new
            (λ content. AreSurveys content self.old → AreSurveys content self.new) }
        ensures fresh { is_wanted ≡ true → OnOk result (IsFresh self.new) }
        ensures zones { self.new.zones ≡ self.old.zones }
    {
        if !is_wanted {
            return Ok(());
        }
        self.read_listing(alloc, source)
    }

    fn put_listing(&mut self, listing: Listing, marks: Vec<Id>)
        ensures listing { self.new.listing ≡ Some listing }
        ensures marks { self.new.marks ≡ marks.items }
        ensures zones { self.new.zones ≡ self.old.zones }
    {
        self.listing = Some(listing);
        self.marks = marks;
    }

    // Reads the ids that are marked, and renews the listing.
    fn renew<P: Published>(&mut self, alloc: Global, source: &mut P) -> Result<(), SourceFault>
        requires { IsSome self.now.listing }
        ensures asks { MayAsk P.content_view Device source.old source.new result }
        ensures right { Tells P.content_view source.old source.new
            (λ content. AreSurveys content self.old → AreSurveys content self.new) }
        ensures fresh { OnOk result (IsFresh self.new) }
        ensures zones { self.new.zones ≡ self.old.zones }
    {
        if self.marks.is_empty() {
            return Ok(());
        }
        let marks = self.marks_in_order(alloc)?;
        let read = source.seen(alloc, &marks)?;
        self.put_read(alloc, &marks, read)?;
        Ok(())
    }

    // The ids that were touched since the listing was read, ascending.
    fn marks_in_order(&self, alloc: Global) -> Result<Vec<Id>, NoMemory>
        ensures ascend { IfOk result (λ marks. Ascend marks.items) }
        ensures marks { IfOk result (λ marks. marks.items ≡ in_order self.now.marks) }
    {
        let mut marks = Vec::from_slice(alloc, &self.marks)?;
        sort_each_once(&mut marks)?;
        Ok(marks)
    }

    // Renews the listing by what was read of all marked ids. If memory runs out, no listing is kept any more.
    fn put_read(&mut self, alloc: Global, marks: &[Id], read: Vec<Seen>) -> Result<(), NoMemory>
        requires ascend { Ascend marks.now }
        requires listed { IsSome self.now.listing }
        ensures right { (content : Content) → marks.now ≡ in_order self.old.marks
            → read.items ≡ map (seen_in content) marks.now → AreSurveys content self.old
            → AreSurveys content self.new }
        ensures fresh { OnOk result (IsFresh self.new) }
        ensures zones { self.new.zones ≡ self.old.zones }
    {
        self.marks.clear();
        let Some(listing) = self.listing.take() else {
            unreachable!()
        };
        self.listing = Some(listing.renewed(alloc, marks, read)?);
        Ok(())
    }

    /// Makes the survey of a zone, by the listing.
    pub(crate) fn survey(&self, alloc: Global, zone: &Zone) -> Result<Survey, NoMemory>
        requires { IsFresh self.now }
        ensures { IfOk result (λ survey. (content : Content) → AreSurveys content self.now
            → IsSurvey content zone.now survey) }
    {
        match &self.listing {
            Some(listing) => Survey::of(alloc, zone, listing),
            None => unreachable!(),
        }
    }

    /// Keeps the survey of a zone, if there is room and memory for it.
    pub(crate) fn keep(&mut self, zone: &Zone, survey: Survey)
        ensures right { (content : Content) → IsSurvey content zone.now survey
            → AreSurveys content self.old → AreSurveys content self.new }
        ensures bounded { AreBounded self.old → AreBounded self.new }
    {
        self.kept.put(zone, survey);
    }

    /// Marks the ids that a publication touches in the listing, and drops all surveys. If there is no room for so many
    /// marks, it drops the listing too. It takes no memory.
    pub(crate) fn mark(&mut self, ids: &[Id])
        ensures { MayBeMarked ids.now self.old self.new }
    {
        if !self.has_marked(ids) {
            self.listing = None;
            self.marks.clear();
        }
        self.kept.clear();
        self.wide_from = None;
    }

    // Adds marks, if there is room. Returns whether there was.
    fn has_marked(&mut self, ids: &[Id]) -> bool
        ensures marked { result ≡ true → self.new ≡ (record {
          listing = self.old.listing;
          marks = self.old.marks ++ ids.now;
          zones = self.old.zones;
        }) }
        ensures zones { self.new.zones ≡ self.old.zones }
    {
        let room = self.marks.capacity().saturating_sub(self.marks.len());
        if ids.len() > room {
            return false;
        }
        match self.marks.extend_from_slice(ids) {
            Ok(()) => true,
            Err(_) => false,
        }
    }
}
