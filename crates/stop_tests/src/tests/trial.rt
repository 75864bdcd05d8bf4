//! The script with the right answers, and stores over which it is served.
use super::desk::{Known, all_told, are_same, in_lists, knows_callers, push, served, tells};
use super::script::{CALLERS, Checked, QUESTIONS, SCRIPT};
use bureau::{Bureau, Reply};
use bureau_store::{CallerRow, Store, callers};
use chain_cache::ChainCache;
use chains::Whole;
use std::alloc::Global;
use std::hash::RandomState;
use verdicts::Judge;

/// The callers of the script, the right answers, and the parts of the desks that are asked.
pub(crate) struct Trial {
    pub(crate) alloc: Global,
    keys: RandomState,
    pub(crate) callers: Vec<CallerRow>,
    known: Known,
    /// The answers to the questions before the first request of the script, and after each.
    pub(crate) after: Vec<Vec<Reply>>,
}

// By hand, so that a function that owns one drops it by one call.
impl Drop for Trial {
    fn drop(self) {
        let Trial {
            alloc: _,
            keys: _,
            callers: _,
            known: _,
            after: _,
        } = self;
    }
}

/// The stage of a script: so many of its requests were answered, and so many more may have been on their way.
#[derive(Clone, Copy)]
pub(crate) struct Stage {
    pub(crate) answered: usize,
    pub(crate) on_their_way: usize,
}

/// The questions to a desk.
#[derive(Clone, Copy)]
pub(crate) enum Course {
    /// The requests of the script from this one on, and before that one, as `served`.
    Part(usize, usize),
    /// The questions, with the right answers at this stage. Then the rest of the script, with the answers that it
    /// has without a stop.
    Rest(Stage),
    /// Nothing.
    Nothing,
}

// Adds the answers to the questions.
fn put_stage<S: Store, J: Judge<S>>(
    alloc: Global,
    after: &mut Vec<Vec<Reply>>,
    known: &mut Known,
    bureau: &mut Bureau<S, J>,
) -> Checked<()> {
    push(after, all_told(alloc, known, bureau, &QUESTIONS)?)
}

// The answers to the questions before the first request and after each, by a desk that answers all as it should.
fn put_stages<S: Store, J: Judge<S>>(
    alloc: Global,
    after: &mut Vec<Vec<Reply>>,
    known: &mut Known,
    bureau: &mut Bureau<S, J>,
) -> Checked<()> {
    put_stage(alloc, after, known, bureau)?;
    for row in &SCRIPT {
        tells(known, bureau, row)?;
        put_stage(alloc, after, known, bureau)?;
    }
    Ok(())
}

// The same, by a desk over this store.
fn stages_over<S: Store + Drop>(
    alloc: Global,
    known: &mut Known,
    store: S,
) -> Checked<Vec<Vec<Reply>>> {
    let mut bureau = Bureau::new(alloc, store, Whole::new());
    let mut after = Vec::new(alloc);
    put_stages(alloc, &mut after, known, &mut bureau)?;
    Ok(after)
}

// The same, by a desk over lists, which have no device.
fn stages(alloc: Global, known: &mut Known, callers: &[CallerRow]) -> Checked<Vec<Vec<Reply>>> {
    stages_over(alloc, known, in_lists(alloc, callers)?)
}

fn known_callers(alloc: Global) -> Checked<Vec<CallerRow>> {
    callers(alloc, CALLERS).ok().ok_or("callers")
}

/// The script with the right answers: those of a desk over lists, which have no device, after each request.
pub(crate) fn worked(alloc: Global, keys: RandomState) -> Checked<Trial> {
    let callers = known_callers(alloc)?;
    let mut known = Known::new(alloc, callers.as_slice())?;
    let after = stages(alloc, &mut known, callers.as_slice())?;
    Ok(Trial {
        alloc,
        keys,
        callers,
        known,
        after,
    })
}

impl Trial {
    // A desk over this store, with a cache that keeps nothing yet.
    fn desk<S: Store + Drop>(&self, store: S) -> Checked<Bureau<S, ChainCache>> {
        let cache = ChainCache::new(self.alloc, 16, self.keys)
            .ok()
            .ok_or("memory")?;
        Ok(Bureau::new(self.alloc, store, cache))
    }

    fn served_at<S: Store, J: Judge<S>>(
        &mut self,
        bureau: &mut Bureau<S, J>,
        first: usize,
        end: usize,
    ) -> Checked<usize> {
        let rows = SCRIPT.get(first..end).ok_or("a part")?;
        served(&mut self.known, bureau, rows)
    }

    // Whether these answers are right at this stage.
    fn is_right(&self, stage: Stage, replies: &[Reply]) -> bool {
        self.after
            .iter()
            .skip(stage.answered)
            .take(stage.on_their_way.saturating_add(1))
            .any(|after| are_same(replies, after.as_slice()))
    }

    // Checks that the questions have the right answers at this stage.
    fn finds<S: Store, J: Judge<S>>(
        &mut self,
        stage: Stage,
        bureau: &mut Bureau<S, J>,
    ) -> Checked<()> {
        let replies = all_told(self.alloc, &mut self.known, bureau, &QUESTIONS)?;
        if !self.is_right(stage, replies.as_slice()) {
            return Err("what is found was never right");
        }
        Ok(())
    }

    // Checks that the rest of the script has the answers that it has without a stop.
    fn ends<S: Store, J: Judge<S>>(
        &mut self,
        stage: Stage,
        bureau: &mut Bureau<S, J>,
    ) -> Checked<usize> {
        let rest = SCRIPT.get(stage.answered..).ok_or("too many answers")?;
        let answered = served(&mut self.known, bureau, rest)?;
        if answered < rest.len() {
            return Err("the store that is found fails");
        }
        Ok(answered)
    }

    fn goes_on_at<S: Store, J: Judge<S>>(
        &mut self,
        stage: Stage,
        bureau: &mut Bureau<S, J>,
    ) -> Checked<usize> {
        if !knows_callers(&mut self.known, bureau) {
            return Err("a caller is lost");
        }
        self.finds(stage, bureau)?;
        self.ends(stage, bureau)
    }

    fn asked_at<S: Store, J: Judge<S>>(
        &mut self,
        bureau: &mut Bureau<S, J>,
        course: Course,
    ) -> Checked<usize> {
        match course {
            Course::Part(first, end) => self.served_at(bureau, first, end),
            Course::Rest(stage) => self.goes_on_at(stage, bureau),
            Course::Nothing => Ok(0),
        }
    }

    // As `asked_over`, at a desk with any judge.
    fn asked_by<S: Store + Drop, J: Judge<S> + Drop>(
        &mut self,
        mut bureau: Bureau<S, J>,
        course: Course,
    ) -> Checked<(usize, S)> {
        let answered = self.asked_at(&mut bureau, course)?;
        let (store, _) = bureau.into_parts();
        Ok((answered, store))
    }

    /// Asks this at a desk over this store. Returns the number of requests that were answered, and the store.
    pub(crate) fn asked_over<S: Store + Drop>(
        &mut self,
        store: S,
        course: Course,
    ) -> Checked<(usize, S)> {
        let bureau = self.desk(store)?;
        self.asked_by(bureau, course)
    }
}
