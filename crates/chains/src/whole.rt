//! The judge that keeps nothing.
ghost use Rattle.catalogue.specs.Content.{Content};
ghost use Rattle.chains.specs.Whole.{IsRightFor};

use crate::candidates::candidates_for;
use crate::surveying::survey_of;
use catalogue::{Published, SourceFault};
use mcs_reader::Id;
use std::alloc::Global;
use supersede::Zone;
use verdicts::{Judge, Status, Verdict};

/// Judges over the whole catalogue: each call reads all that is catalogued anew. It keeps nothing, so it
/// is right for every content.
#[derive(Clone, Copy, Debug)]
pub struct Whole;

impl Whole {
    /// A judge, right for every content.
    pub fn new() -> Self
        ensures { (content : Content) → IsRightFor result content }
    {
        Whole
    }
}

impl<P: Published> Judge<P> for Whole {
    ghost use Rattle.chains.specs.Whole.{IsRightFor};

    ghost is_right = { IsRightFor };

    fn verdict(
        &mut self,
        alloc: Global,
        source: &mut P,
        zone: &Zone,
        id: &Id,
    ) -> Result<Verdict, SourceFault> {
        let survey = survey_of(alloc, source, zone)?;
        Ok(survey.verdict(alloc, id)?)
    }

    fn drop_touched(&mut self, _ids: &[Id]) {}

    fn candidates(
        &mut self,
        alloc: Global,
        source: &mut P,
        zone: &Zone,
        ids: &[Id],
    ) -> Result<Vec<Option<Vec<Id>>>, SourceFault> {
        candidates_for(alloc, source, None, &[], zone, ids)
    }

    fn statuses(
        &mut self,
        alloc: Global,
        source: &mut P,
        zone: &Zone,
        ids: &[Id],
    ) -> Result<Vec<Status>, SourceFault> {
        let survey = survey_of(alloc, source, zone)?;
        Ok(survey.statuses(alloc, ids)?)
    }

    fn united(
        &mut self,
        alloc: Global,
        source: &mut P,
        zone: &Zone,
        ids: &[Id],
    ) -> Result<Vec<Id>, SourceFault> {
        let survey = survey_of(alloc, source, zone)?;
        Ok(survey.united(alloc, ids)?)
    }
}
