//! Lists in print, an entry on each line, and patterns of fix categories.
use crate::bytes::bytes_of;
use crate::print::{line, put_bytes, put_fault};
use faults::NoMemory;
use mcs_reader::Id;
use std::alloc::Global;
use std::test::Fail;
use zone_lists::{ListFault, Pattern, ZoneRow, ZoneState, patterns, received_rows, zone_rows};

/// A list in print, or its fault. There are three of them.
pub(crate) fn list_told(alloc: Global, list: &[u8], word: &str) -> Result<Option<String>, Fail> {
    let text = match word {
        "zone" => zone_text(alloc, list),
        "received" => received_text(alloc, list),
        "patterns" => patterns_text(alloc, list),
        _ => return Ok(None),
    };
    match text {
        Ok(text) => Ok(Some(text)),
        Err(fault) => Ok(Some(fault_line(alloc, fault)?)),
    }
}

fn fault_line(alloc: Global, fault: ListFault) -> Result<String, NoMemory> {
    let mut text = String::new(alloc);
    put_fault(&mut text, fault)?;
    Ok(text)
}

fn zone_text(alloc: Global, list: &[u8]) -> Result<String, ListFault> {
    let mut text = String::new(alloc);
    for row in &zone_rows(alloc, list)? {
        put_row(&mut text, row)?;
    }
    Ok(text)
}

fn put_row(text: &mut String, row: &ZoneRow) -> Result<(), NoMemory> {
    text.push_str(row.sysmod.text())?;
    text.push_str(match row.state {
        ZoneState::Applied => " APPLIED\n",
        ZoneState::Accepted => " ACCEPTED\n",
        ZoneState::Superseded => " SUPERSEDED\n",
    })
}

fn received_text(alloc: Global, list: &[u8]) -> Result<String, ListFault> {
    let mut text = String::new(alloc);
    for id in &received_rows(alloc, list)? {
        put_id(&mut text, id)?;
    }
    Ok(text)
}

fn put_id(text: &mut String, id: &Id) -> Result<(), NoMemory> {
    text.push_str(id.text())?;
    text.push('\n')
}

fn patterns_text(alloc: Global, list: &[u8]) -> Result<String, ListFault> {
    let mut text = String::new(alloc);
    for pattern in &patterns(alloc, list)? {
        put_pattern(&mut text, pattern)?;
    }
    Ok(text)
}

fn put_pattern(text: &mut String, pattern: &Pattern) -> Result<(), NoMemory> {
    put_bytes(text, pattern.text())?;
    text.push('\n')
}

/// Whether a category matches a pattern: `PATTERN CATEGORY`.
pub(crate) fn matches_told(alloc: Global, rest: &str) -> Result<String, Fail> {
    let (pattern, category) = rest.split_once(' ').ok_or("matches PATTERN CATEGORY")?;
    match Pattern::new(alloc, &bytes_of(alloc, pattern)?)? {
        Some(pattern) if pattern.matches(category.as_bytes()) => Ok(line(alloc, "yes")?),
        Some(_) => Ok(line(alloc, "no")?),
        None => Ok(line(alloc, "no pattern")?),
    }
}
