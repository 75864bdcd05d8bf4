//! The surveys that are kept.
ghost use Rattle.std.specs.Prelude.{◌≡◌, ◌+◌, ◌<◌, ◌≤◌, ◌⊎◌, [], true, Contains, IfSome, Some, length, slice_get};
ghost use Rattle.std.specs.List.{sum_by};
ghost use Rattle.chain_cache.specs.Cache.{ZoneSurvey, survey_bytes};
ghost use Rattle.chains.specs.Surveys.{SurveyLists};

use chains::Survey;
use std::alloc::Global;
use std::hash::{FoldHasher, Hash, Hasher};
use std::marker::Model;
use supersede::Zone;

// The most bytes that all surveys take together, as they are counted.
const MOST: usize = 268_435_456;

// What is counted for a survey: for each row of its zone, for each id that it has, and besides.
const ROW: usize = 8;

const ID: usize = 100;

const EACH: usize = 65_536;

// The rows of a zone that are looked at before all of them.
const SAMPLES: usize = 64;

/// A zone with its survey.
#[derive(Debug, Drop)]
struct Surveyed {
    zone: Zone,
    survey: Survey,
    // Of the zone's rows, and when the survey was used last.
    sample: u64,
    used: u64,
}

impl Model for Surveyed {
    ghost use Rattle.chain_cache.specs.Cache.{ZoneSurvey};

    ghost Value = { ZoneSurvey };

    ghost view = { λ surveyed. record { rows = surveyed.zone; survey = surveyed.survey } };
}

impl Surveyed {
    fn is_of(&self, zone: &Zone) -> bool
        ensures { result ≡ true → self.now.rows ≡ zone.now }
    {
        self.zone.is_same(zone)
    }

    fn survey(&self) -> &Survey
        ensures { result.now ≡ self.now.survey }
    {
        &self.survey
    }

    fn use_now(&mut self, now: u64)
        ensures { self.new ≡ self.old }
    {
        self.used = now;
    }

    // What is left of so much room beside it, if it fits.
    fn left_of(&self, room: usize) -> Option<usize>
        ensures { IfSome result (λ left. left + survey_bytes self.now ≡ room) }
    {
        room.checked_sub(bytes_of(&self.zone, &self.survey)?)
    }
}

// The bytes that are counted for a zone with its survey, if a number can say it.
fn bytes_of(zone: &Zone, survey: &Survey) -> Option<usize>
    ensures { IfSome result
        (λ bytes. bytes ≡ survey_bytes (record { rows = zone.now; survey = survey.now })) }
{
    let rows = zone.rows().len().checked_mul(ROW)?;
    let ids = survey.count().checked_mul(ID)?;
    EACH.checked_add(rows)?.checked_add(ids)
}

// A number that is made of the length of a zone and up to 64 of its rows. Zones with other numbers are others.
fn sample_of(zone: &Zone) -> u64 {
    let rows = zone.rows();
    let step = rows.len() / SAMPLES + 1;
    let mut hasher = FoldHasher::default();
    rows.len().hash(&mut hasher);
    for turn in 0..SAMPLES {
        if let Some(row) = rows.get(turn.saturating_mul(step)) {
            row.hash(&mut hasher);
        }
    }
    hasher.finish()
}

/// Surveys of zones. Those that were used last are kept, as many as take no more than [`MOST`] bytes.
#[derive(Debug, Drop)]
pub(crate) struct KeptSurveys {
    kept: Vec<Surveyed>,
    // How often surveys were used, and which was used last.
    uses: u64,
    last: usize,
}

impl Model for KeptSurveys {
    ghost use Rattle.std.specs.Prelude.{List};
    ghost use Rattle.chain_cache.specs.Cache.{ZoneSurvey};

    ghost Value = { List ZoneSurvey };

    ghost view = { λ surveys. surveys.kept.items };
}

impl KeptSurveys {
    /// None.
    pub(crate) fn new(alloc: Global) -> Self
        ensures { result ≡ [] }
    {
        KeptSurveys {
            kept: Vec::new(alloc),
            uses: 0,
            last: 0,
        }
    }

    /// Forgets all.
    pub(crate) fn clear(&mut self)
        ensures { self.new ≡ [] }
    {
        self.kept.clear();
    }

    /// Finds the survey of a zone with these rows, if it is kept. It counts as used.
    pub(crate) fn find(&mut self, zone: &Zone) -> Option<usize>
        ensures same { self.new ≡ self.old }
        ensures within { IfSome result (λ at. at < length self.old) }
        ensures found { IfSome result (λ at. (survey : SurveyLists)
            × (slice_get self.old at ≡ Some (record { rows = zone.now; survey = survey }))) }
    {
        let at = self.index_of(zone)?;
        self.uses = self.uses.saturating_add(1);
        self.last = at;
        self.kept[at].use_now(self.uses);
        Some(at)
    }

    // Where the survey of a zone stands. The one that was used last is looked at first.
    fn index_of(&self, zone: &Zone) -> Option<usize>
        ensures within { IfSome result (λ at. at < length self.now) }
        ensures found { IfSome result (λ at. (survey : SurveyLists)
            × (slice_get self.now at ≡ Some (record { rows = zone.now; survey = survey }))) }
    {
        if self.is_at(self.last, zone) {
            return Some(self.last);
        }
        let sample = sample_of(zone);
        for at in 0..self.kept.len() {
            if self.is_sampled_at(at, zone, sample) {
                return Some(at);
            }
        }
        None
    }

    // Whether the survey that stands there is that of a zone.
    fn is_at(&self, at: usize, zone: &Zone) -> bool
        ensures within { result ≡ true → at < length self.now }
        ensures found { result ≡ true → (survey : SurveyLists)
            × (slice_get self.now at ≡ Some (record { rows = zone.now; survey = survey })) }
    {
        let count = self.kept.len();
        if at < count {
            return self.kept[at].is_of(zone);
        }
        false
    }

    // The same, of a zone with this sample.
    fn is_sampled_at(&self, at: usize, zone: &Zone, sample: u64) -> bool
        ensures within { result ≡ true → at < length self.now }
        ensures found { result ≡ true → (survey : SurveyLists)
            × (slice_get self.now at ≡ Some (record { rows = zone.now; survey = survey })) }
    {
        if !self.has_sample(at, sample) {
            return false;
        }
        self.is_at(at, zone)
    }

    fn has_sample(&self, at: usize, sample: u64) -> bool {
        match self.kept.get(at) {
            Some(surveyed) => surveyed.sample == sample,
            None => false,
        }
    }

    /// The survey that stands there.
    pub(crate) fn at(&self, at: usize) -> &Survey
        requires { at < length self.now }
        ensures { IfSome (slice_get self.now at) (λ kept. result.now ≡ kept.survey) }
    {
        self.kept[at].survey()
    }
}

impl KeptSurveys {
    /// Keeps the survey of a zone, if there is memory for it. Those that were used longest ago go, as far as it needs
    /// their room. One that alone takes too much isn't kept.
    pub(crate) fn put(&mut self, zone: &Zone, survey: Survey)
        ensures each { (one : ZoneSurvey) → Contains self.new one
            → Contains self.old one ⊎ (one ≡ record { rows = zone.now; survey = survey }) }
        ensures bounded { sum_by survey_bytes self.old ≤ 268435456
            → sum_by survey_bytes self.new ≤ 268435456 }
    {
        let Some(bytes) = bytes_of(zone, &survey) else {
            return
        };
        let Ok(copy) = zone.copy() else { return };
        let has_room = self.make_room(bytes);
        if !has_room {
            return;
        }
        self.push(copy, survey, sample_of(zone));
    }

    // Keeps one more, if there is memory for it.
    fn push(&mut self, zone: Zone, survey: Survey, sample: u64)
        ensures each { (one : ZoneSurvey) → Contains self.new one
            → Contains self.old one ⊎ (one ≡ record { rows = zone; survey = survey }) }
        ensures bytes { sum_by survey_bytes self.new
            ≤ (sum_by survey_bytes self.old + survey_bytes (record { rows = zone; survey = survey })) }
    {
        self.uses = self.uses.saturating_add(1);
        self.last = self.kept.len();
        let used = self.uses;
        let _ = self.kept.push(Surveyed {
            zone,
            survey,
            sample,
            used,
        });
    }

    // Makes room for so many bytes. Returns whether there is that much.
    fn make_room(&mut self, bytes: usize) -> bool
        ensures fewer { (one : ZoneSurvey) → Contains self.new one → Contains self.old one }
        ensures less { sum_by survey_bytes self.new ≤ sum_by survey_bytes self.old }
        ensures room { result ≡ true → bytes + sum_by survey_bytes self.new ≤ 268435456 }
    {
        for _ in 0..self.kept.len() {
            if self.fits(bytes) {
                return true;
            }
            self.drop_oldest();
        }
        self.fits(bytes)
    }

    // Whether so many bytes fit beside what is kept.
    fn fits(&self, bytes: usize) -> bool
        ensures { result ≡ true → bytes + sum_by survey_bytes self.now ≤ 268435456 }
    {
        let Some(mut room) = MOST.checked_sub(bytes) else {
            return false;
        };
        for surveyed in &self.kept {
            let Some(left) = surveyed.left_of(room) else {
                return false;
            };
            room = left;
        }
        true
    }

    // Drops the survey that was used longest ago.
    fn drop_oldest(&mut self)
        ensures fewer { (one : ZoneSurvey) → Contains self.new one → Contains self.old one }
        ensures less { sum_by survey_bytes self.new ≤ sum_by survey_bytes self.old }
    {
        let Some(at) = self.oldest() else { return };
        drop(self.kept.remove(at));
    }

    fn oldest(&self) -> Option<usize>
        ensures { IfSome result (λ at. at < length self.now) }
    {
        let mut oldest = None;
        let mut least = u64::MAX;
        for (at, surveyed) in self.kept.iter().enumerate() {
            if surveyed.used <= least {
                least = surveyed.used;
                oldest = Some(at);
            }
        }
        oldest
    }
}
