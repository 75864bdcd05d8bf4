//! Publishing statements, and what is catalogued then.
use crate::asked::{forget, touched_by};
use crate::content::{Content, zone_of};
use crate::print::{line, put_change, put_sysmod};
use bureau_store::Store;
use catalogue::{Change, Published, SourceFault, read_changes};
use faults::{Fault, fault_text};
use mcs_reader::{Id, NoMemory, read};
use std::alloc::Global;
use std::test::Fail;
use supersede::givers;
use zone_lists::patterns;

/// The changes that statements make.
pub(crate) fn changes_of(alloc: Global, statements: &str) -> Result<Vec<Change>, Fail> {
    Ok(read_changes(alloc, &read(alloc, statements.as_bytes())?)?)
}

/// Publishes statements. The cache drops what they touch before.
pub(crate) fn publish(alloc: Global, content: &mut Content, statements: &str) -> Result<(), Fail> {
    let changes = changes_of(alloc, statements)?;
    let Content { source, cache, .. } = content;
    forget(alloc, &mut source.lists, cache, &changes)?;
    Ok(source.lists.publish(1, b"published", &changes)?)
}

/// Sets the zone by its rows, and by the lines of a list.
pub(crate) fn set_zone(
    alloc: Global,
    content: &mut Content,
    rows: &str,
    lines: &str,
) -> Result<(), Fail> {
    let mut list = String::new(alloc);
    for row in rows.split_ascii_whitespace() {
        list.push_str(row)?;
        list.push('\n')?;
    }
    list.push_str(lines)?;
    content.zone = zone_of(alloc, &list)?;
    Ok(())
}

/// Sets the zone's patterns by the lines of a list.
pub(crate) fn set_patterns(alloc: Global, content: &mut Content, lines: &str) -> Result<(), Fail> {
    let mut list = String::from_str(alloc, "CATEGORY\n")?;
    list.push_str(lines)?;
    content.patterns = patterns(alloc, list.as_bytes())?;
    Ok(())
}

fn fault_line<F: Fault>(alloc: Global, fault: F) -> Result<String, Fail> {
    Ok(String::from_str(alloc, fault_text(fault).as_str())?)
}

/// The first fault of statements, or nothing.
pub(crate) fn fault_told(alloc: Global, statements: &str) -> Result<String, Fail> {
    let statements = read(alloc, statements.as_bytes())?;
    match read_changes(alloc, &statements) {
        Ok(_) => Ok(String::new(alloc)),
        Err(fault) => fault_line(alloc, fault),
    }
}

/// The changes that statements make, a line each.
pub(crate) fn changes_told(alloc: Global, statements: &str) -> Result<String, Fail> {
    let changes = changes_of(alloc, statements)?;
    let mut text = String::new(alloc);
    for change in &changes {
        put_change(&mut text, change)?;
    }
    Ok(text)
}

/// The ids that statements would touch.
pub(crate) fn touched_told(
    alloc: Global,
    content: &mut Content,
    statements: &str,
) -> Result<String, Fail> {
    let changes = changes_of(alloc, statements)?;
    let ids = touched_by(alloc, &mut content.source, &changes)?;
    Ok(line(alloc, "TOUCHED", &ids)?)
}

/// The SYSMODs that give each id.
pub(crate) fn givers_told<P: Published>(
    alloc: Global,
    source: &mut P,
    ids: &[Id],
) -> Result<String, SourceFault> {
    let mut text = String::new(alloc);
    for id in ids {
        let givers = givers(alloc, source, id)?;
        text.push_str(&line(alloc, "GIVEN BY", &givers)?)?;
    }
    Ok(text)
}

/// The records of ids, whether they are held, and the SYSMODs that supersede them.
pub(crate) fn records<P: Published>(
    alloc: Global,
    source: &mut P,
    ids: &[Id],
) -> Result<String, SourceFault> {
    let mut text = String::new(alloc);
    for id in ids {
        put_record(&mut text, source, id)?;
        put_held(&mut text, source, id)?;
        text.push_str(&superseders_told(alloc, source, id)?)?;
    }
    Ok(text)
}

fn put_record<P: Published>(text: &mut String, source: &mut P, id: &Id) -> Result<(), SourceFault> {
    match source.sysmod(id)? {
        Some(sysmod) => Ok(put_sysmod(text, &sysmod)?),
        None => Ok(text.push_str("not catalogued\n")?),
    }
}

fn put_held<P: Published>(text: &mut String, source: &mut P, id: &Id) -> Result<(), SourceFault> {
    if source.holds_on(id)?.is_empty() {
        return Ok(());
    }
    Ok(text.push_str("held\n")?)
}

fn superseders_told<P: Published>(
    alloc: Global,
    source: &mut P,
    id: &Id,
) -> Result<String, SourceFault> {
    let superseders = source.superseders(id)?;
    Ok(line(alloc, "SUPERSEDED BY", &superseders)?)
}
