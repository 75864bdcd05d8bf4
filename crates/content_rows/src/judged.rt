//! Verdicts, by each way to them.
use crate::asked::{statuses, told, united};
use crate::content::Content;
use crate::print::{statuses_text, verdict_text};
use catalogue::{Published, SourceFault};
use chains::{Frame, Whole, frame, good, plan};
use mcs_reader::{Id, NoMemory};
use std::alloc::Global;
use supersede::Zone;
use verdicts::sort_each_once;

// In a frame of at most so many SYSMODs, the verdicts on all of them are compared.
const SMALL: usize = 32;

/// The verdicts on ids, a line each. If the ways to one of them don't agree, all are told.
pub(crate) fn verdicts(
    alloc: Global,
    content: &mut Content,
    ids: &[Id],
) -> Result<String, SourceFault> {
    let mut text = String::new(alloc);
    for id in ids {
        text.push_str(&verdict(alloc, content, id)?)?;
    }
    let (source, zone) = (&mut content.source, &content.zone);
    if !is_together(alloc, source, zone, ids, &text)? {
        text.push_str("asked for together they are others\n")?;
    }
    Ok(text)
}

fn verdict(alloc: Global, content: &mut Content, id: &Id) -> Result<String, SourceFault> {
    let (source, cache, zone) = (&mut content.source, &mut content.cache, &content.zone);
    let mut whole = told(alloc, source, &mut Whole::new(), zone, id)?;
    let kept = told(alloc, source, cache, zone, id)?;
    put_other(&mut whole, "from what is kept ", &kept)?;
    put_framed(alloc, source, zone, id, &mut whole)?;
    Ok(whole)
}

// Adds a verdict of another way, unless it is the same.
fn put_other(text: &mut String, way: &str, other: &str) -> Result<(), NoMemory> {
    if text.as_str() == other {
        return Ok(());
    }
    text.push_str(way)?;
    text.push_str(other)
}

// Adds the verdict from the frame of an id, unless it is the same, and says so if the verdict on another SYSMOD
// of the frame isn't.
fn put_framed<P: Published>(
    alloc: Global,
    source: &mut P,
    zone: &Zone,
    id: &Id,
    text: &mut String,
) -> Result<(), SourceFault> {
    let frame = frame(alloc, source, id)?;
    put_other(text, "from its frame ", &planned(alloc, zone, &frame, id)?)?;
    if frame.nodes().len() <= SMALL && !are_framed(alloc, source, zone, &frame)? {
        text.push_str("in its frame they are others\n")?;
    }
    Ok(())
}

// The verdict from a frame alone.
fn planned(alloc: Global, zone: &Zone, frame: &Frame, id: &Id) -> Result<String, NoMemory> {
    let verdict = plan(alloc, frame, zone, id)?;
    verdict_text(alloc, &verdict)
}

// Whether the verdicts on all SYSMODs of a frame, from it alone, are those over all that is catalogued.
fn are_framed<P: Published>(
    alloc: Global,
    source: &mut P,
    zone: &Zone,
    frame: &Frame,
) -> Result<bool, SourceFault> {
    let mut found = String::new(alloc);
    let mut wanted = String::new(alloc);
    for node in frame.nodes() {
        found.push_str(&planned(alloc, zone, frame, &node.id)?)?;
        wanted.push_str(&told(alloc, source, &mut Whole::new(), zone, &node.id)?)?;
    }
    Ok(found == wanted && are_good(alloc, zone, frame, &wanted)?)
}

// Whether a frame has as many good SYSMODs as there are such verdicts.
fn are_good(alloc: Global, zone: &Zone, frame: &Frame, verdicts: &str) -> Result<bool, NoMemory> {
    let good = good(alloc, frame, zone)?;
    let count = verdicts.lines().filter(|it| it.starts_with("GOOD")).count();
    Ok(good.len() == count)
}

// Whether statuses and plans that are asked for together are those of verdicts, one on each line.
fn is_together<P: Published>(
    alloc: Global,
    source: &mut P,
    zone: &Zone,
    ids: &[Id],
    verdicts: &str,
) -> Result<bool, SourceFault> {
    let statuses = statuses(alloc, source, &mut Whole::new(), zone, ids)?;
    let united = united(alloc, source, &mut Whole::new(), zone, ids)?;
    let is_same = united.as_slice() == planned_in(alloc, verdicts)?.as_slice();
    Ok(is_same && statuses_text(alloc, &statuses)? == statuses_in(alloc, verdicts)?)
}

// The first word of each verdict, on one line.
fn statuses_in(alloc: Global, verdicts: &str) -> Result<String, NoMemory> {
    let mut text = String::from_str(alloc, "STATUS")?;
    for line in verdicts.lines() {
        text.push(' ')?;
        text.push_str(line.split(' ').next().unwrap_or(""))?;
    }
    text.push('\n')?;
    Ok(text)
}

// The members of the plans of verdicts.
fn planned_in(alloc: Global, verdicts: &str) -> Result<Vec<Id>, NoMemory> {
    let mut ids: Vec<Id> = Vec::new(alloc);
    for line in verdicts.lines() {
        put_plan(&mut ids, line)?;
    }
    sort_each_once(&mut ids)?;
    Ok(ids)
}

fn put_plan(ids: &mut Vec<Id>, verdict: &str) -> Result<(), NoMemory> {
    let Some(plan) = verdict.strip_prefix("GOOD ") else {
        return Ok(());
    };
    for word in plan.split(' ') {
        if let Some(id) = Id::new(word.as_bytes()) {
            ids.push(id)?;
        }
    }
    Ok(())
}
