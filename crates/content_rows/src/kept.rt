//! The answers of the cache.
use crate::asked::{
    all_ids, are_candidates, are_statuses, are_united, candidates, statuses, united,
};
use crate::content::Content;
use crate::print::{line, statuses_text};
use catalogue::{Published, SourceFault};
use chain_cache::ChainCache;
use chains::Whole;
use mcs_reader::{Id, NoMemory};
use std::alloc::Global;
use std::fmt::Write;
use supersede::Zone;
use verdicts::Judge;

/// The number of frames that were built, and the ids of those that are kept, in their order.
pub(crate) fn kept_told(alloc: Global, cache: &ChainCache) -> Result<String, NoMemory> {
    let mut ids: Vec<Id> = Vec::new(alloc);
    for (id, _) in cache.iter() {
        ids.push(*id)?;
    }
    let words = format!(in alloc; "{} BUILT, KEPT", cache.built())?;
    line(alloc, &words, &ids)
}

/// The statuses of ids, by the cache.
pub(crate) fn statuses_told(
    alloc: Global,
    content: &mut Content,
    ids: &[Id],
) -> Result<String, SourceFault> {
    let (source, cache, zone) = (&mut content.source, &mut content.cache, &content.zone);
    let statuses = statuses(alloc, source, cache, zone, ids)?;
    Ok(statuses_text(alloc, &statuses)?)
}

/// The members of the chosen plans of ids, by the cache.
pub(crate) fn together(
    alloc: Global,
    content: &mut Content,
    ids: &[Id],
) -> Result<String, SourceFault> {
    let (source, cache, zone) = (&mut content.source, &mut content.cache, &content.zone);
    let united = united(alloc, source, cache, zone, ids)?;
    Ok(line(alloc, "TOGETHER", &united)?)
}

/// The number of candidates that give each of some ids, unless it is there.
pub(crate) fn counts<P: Published, J: Judge<P>>(
    alloc: Global,
    source: &mut P,
    judge: &mut J,
    zone: &Zone,
    ids: &[Id],
) -> Result<String, SourceFault> {
    let found = candidates(alloc, source, judge, zone, ids)?;
    Ok(counts_text(alloc, &found)?)
}

fn counts_text(alloc: Global, found: &[Option<Vec<Id>>]) -> Result<String, NoMemory> {
    let mut text = String::from_str(alloc, "GIVEN BY")?;
    for candidates in found {
        put_count(&mut text, candidates)?;
    }
    text.push('\n')?;
    Ok(text)
}

fn put_count(text: &mut String, candidates: &Option<Vec<Id>>) -> Result<(), NoMemory> {
    match candidates {
        Some(ids) => Ok(write!(text, " {}", ids.len())?),
        None => text.push_str(" there"),
    }
}

/// Whether the cache answers for ids as a judge of all that is catalogued does.
fn is_same(alloc: Global, content: &mut Content, ids: &[Id]) -> Result<bool, SourceFault> {
    let (source, cache, zone) = (&mut content.source, &mut content.cache, &content.zone);
    let statuses = are_statuses(alloc, source, cache, &mut Whole::new(), zone, ids)?;
    let united = are_united(alloc, source, cache, &mut Whole::new(), zone, ids)?;
    let candidates = are_candidates(alloc, source, cache, &mut Whole::new(), zone, ids)?;
    Ok(statuses & united & candidates)
}

/// The same for all ids that are catalogued, repeated if they are few, so that a report can't ask frames of all.
pub(crate) fn is_same_for_all(alloc: Global, content: &mut Content) -> Result<bool, SourceFault> {
    let ids = all_ids(&mut content.source.lists)?;
    let many = repeated(alloc, &ids)?;
    if many.len() > ids.len() && !is_same(alloc, content, &ids)? {
        return Ok(false);
    }
    is_same(alloc, content, &many)
}

// The same ids, repeated until they are more than 256.
fn repeated(alloc: Global, ids: &[Id]) -> Result<Vec<Id>, NoMemory> {
    let mut many: Vec<Id> = Vec::new(alloc);
    for _ in 0..257 {
        if many.len() < 257 {
            many.extend_from_slice(ids)?;
        }
    }
    Ok(many)
}
