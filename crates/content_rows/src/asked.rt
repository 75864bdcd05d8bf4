//! Questions to a source and a judge. Each is a function over any source and any judge, without a contract: its callers
//! need to know nothing of the answer, and so their proofs are short.
use crate::print::verdict_text;
use catalogue::{Change, Published, SourceFault, touched};
use mcs_reader::Id;
use std::alloc::Global;
use supersede::Zone;
use verdicts::{Judge, Status};

/// The verdict on an id, in print.
pub(crate) fn told<P: Published, J: Judge<P>>(
    alloc: Global,
    source: &mut P,
    judge: &mut J,
    zone: &Zone,
    id: &Id,
) -> Result<String, SourceFault> {
    let verdict = judge.verdict(alloc, source, zone, id)?;
    Ok(verdict_text(alloc, &verdict)?)
}

/// All that is catalogued.
pub(crate) fn all_ids<P: Published>(source: &mut P) -> Result<Vec<Id>, SourceFault> {
    source.ids()
}

/// The statuses of ids.
pub(crate) fn statuses<P: Published, J: Judge<P>>(
    alloc: Global,
    source: &mut P,
    judge: &mut J,
    zone: &Zone,
    ids: &[Id],
) -> Result<Vec<Status>, SourceFault> {
    judge.statuses(alloc, source, zone, ids)
}

/// The members of the chosen plans of ids.
pub(crate) fn united<P: Published, J: Judge<P>>(
    alloc: Global,
    source: &mut P,
    judge: &mut J,
    zone: &Zone,
    ids: &[Id],
) -> Result<Vec<Id>, SourceFault> {
    judge.united(alloc, source, zone, ids)
}

/// The candidates that give each of some ids, unless it is there.
pub(crate) fn candidates<P: Published, J: Judge<P>>(
    alloc: Global,
    source: &mut P,
    judge: &mut J,
    zone: &Zone,
    ids: &[Id],
) -> Result<Vec<Option<Vec<Id>>>, SourceFault> {
    judge.candidates(alloc, source, zone, ids)
}

/// Whether a judge has the same statuses as another one.
pub(crate) fn are_statuses<P: Published, J: Judge<P>, K: Judge<P>>(
    alloc: Global,
    source: &mut P,
    judge: &mut J,
    other: &mut K,
    zone: &Zone,
    ids: &[Id],
) -> Result<bool, SourceFault> {
    let found = statuses(alloc, source, judge, zone, ids)?;
    let wanted = statuses(alloc, source, other, zone, ids)?;
    Ok(found.as_slice() == wanted.as_slice())
}

/// Whether it finds the same members of chosen plans as another one.
pub(crate) fn are_united<P: Published, J: Judge<P>, K: Judge<P>>(
    alloc: Global,
    source: &mut P,
    judge: &mut J,
    other: &mut K,
    zone: &Zone,
    ids: &[Id],
) -> Result<bool, SourceFault> {
    let found = united(alloc, source, judge, zone, ids)?;
    let wanted = united(alloc, source, other, zone, ids)?;
    Ok(found.as_slice() == wanted.as_slice())
}

/// Whether it has the same candidates as another one.
pub(crate) fn are_candidates<P: Published, J: Judge<P>, K: Judge<P>>(
    alloc: Global,
    source: &mut P,
    judge: &mut J,
    other: &mut K,
    zone: &Zone,
    ids: &[Id],
) -> Result<bool, SourceFault> {
    let found = candidates(alloc, source, judge, zone, ids)?;
    let wanted = candidates(alloc, source, other, zone, ids)?;
    Ok(found.as_slice() == wanted.as_slice())
}

/// The ids that changes touch.
pub(crate) fn touched_by<P: Published>(
    alloc: Global,
    source: &mut P,
    changes: &[Change],
) -> Result<Vec<Id>, SourceFault> {
    touched(alloc, source, changes)
}

/// Lets the judge forget what changes touch, before they are published.
pub(crate) fn forget<P: Published, J: Judge<P>>(
    alloc: Global,
    source: &mut P,
    judge: &mut J,
    changes: &[Change],
) -> Result<(), SourceFault> {
    let ids = touched(alloc, source, changes)?;
    judge.drop_touched(&ids);
    Ok(())
}
