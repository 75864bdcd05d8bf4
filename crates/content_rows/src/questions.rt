//! The commands, and the questions that they ask.
use crate::asked::all_ids;
use crate::catalogued::{
    changes_told, fault_told, givers_told, publish, records, set_patterns, set_zone, touched_told,
};
use crate::content::{Content, id_of};
use crate::frames::{frames_told, kept_nodes, nodes, touching};
use crate::judged::verdicts;
use crate::kept::{counts, is_same_for_all, kept_told, statuses_told, together};
use crate::print::{line, number, yes};
use crate::reads::{fails, reads};
use catalogue::SourceFault;
use chains::Whole;
use mcs_reader::Id;
use std::alloc::Global;
use std::test::Fail;
use testing_rows::{Row, Subject};

impl Subject for Content {
    fn begin(&mut self, alloc: Global) -> Result<(), Fail> {
        self.clear(alloc)
    }

    fn answer(&mut self, alloc: Global, row: &Row) -> Result<Option<String>, Fail> {
        match row.word.as_str() {
            "publish" => publish(alloc, self, &row.given)?,
            "zone" => set_zone(alloc, self, &row.rest, &row.given)?,
            "categories" => set_patterns(alloc, self, &row.given)?,
            "room" => self.make_room(alloc, row.rest.parse::<u32>()?)?,
            "answers" => self.answer(row.rest.parse::<u64>().unwrap_or(u64::MAX)),
            _ => return of_statements(alloc, self, row),
        }
        Ok(Some(String::new(alloc)))
    }
}

// Questions about the lines before the command, and about reads.
fn of_statements(alloc: Global, content: &mut Content, row: &Row) -> Result<Option<String>, Fail> {
    match row.word.as_str() {
        "fault" => Ok(Some(fault_told(alloc, &row.given)?)),
        "changes" => Ok(Some(changes_told(alloc, &row.given)?)),
        "touched" => Ok(Some(touched_told(alloc, content, &row.given)?)),
        "reads" | "fails" => counted(alloc, content, row),
        _ => answered(alloc, content, row),
    }
}

// The number of reads that a question takes. A question without an id is asked with any.
fn counted(alloc: Global, content: &mut Content, row: &Row) -> Result<Option<String>, Fail> {
    let (word, id) = row.rest.split_once(' ').unwrap_or((&row.rest, "NONE"));
    let id = id_of(id)?;
    if row.word.as_str() == "reads" {
        return reads(alloc, content, row, word, id);
    }
    fails(alloc, content, row, word, id)
}

// The ids of a row: those after its word, and those on the lines before it.
fn ids_in(alloc: Global, row: &Row) -> Result<Vec<Id>, Fail> {
    let mut ids: Vec<Id> = Vec::new(alloc);
    for word in row.rest.split_ascii_whitespace() {
        ids.push(id_of(word)?)?;
    }
    for word in row.given.split_ascii_whitespace() {
        ids.push(id_of(word)?)?;
    }
    Ok(ids)
}

// The answer, if the source gives one.
fn answered(alloc: Global, content: &mut Content, row: &Row) -> Result<Option<String>, Fail> {
    let ids = ids_in(alloc, row)?;
    match of_content(alloc, content, &row.word, &ids) {
        Ok(told) => Ok(told),
        Err(SourceFault::Device) => Ok(Some(line(alloc, "NO ANSWER", &[])?)),
        Err(SourceFault::Memory) => Err(Fail::from("memory ran out")),
    }
}

// Questions about what is catalogued.
fn of_content(
    alloc: Global,
    content: &mut Content,
    word: &str,
    ids: &[Id],
) -> Result<Option<String>, SourceFault> {
    let source = &mut content.source;
    match word {
        "catalogued" => Ok(Some(line(alloc, "CATALOGUED", &all_ids(source)?)?)),
        "record" => Ok(Some(records(alloc, source, ids)?)),
        "givers" => Ok(Some(givers_told(alloc, source, ids)?)),
        "frame" => Ok(Some(frames_told(alloc, source, ids)?)),
        "nodes" => Ok(Some(nodes(alloc, source, ids)?)),
        "in-frame" => Ok(Some(touching(alloc, source, ids)?)),
        _ => of_cache(alloc, content, word, ids),
    }
}

// Questions to the cache.
fn of_cache(
    alloc: Global,
    content: &mut Content,
    word: &str,
    ids: &[Id],
) -> Result<Option<String>, SourceFault> {
    let (source, cache) = (&mut content.source, &mut content.cache);
    match word {
        "kept" => Ok(Some(kept_told(alloc, cache)?)),
        "built" => Ok(Some(number(alloc, cache.built())?)),
        "kept-nodes" => Ok(Some(kept_nodes(alloc, source, cache, ids)?)),
        "verdict" => Ok(Some(verdicts(alloc, content, ids)?)),
        "same" => Ok(Some(yes(alloc, is_same_for_all(alloc, content)?)?)),
        _ => of_some_or_all(alloc, content, word, ids),
    }
}

// Questions about some ids, or about all that are catalogued.
fn of_some_or_all(
    alloc: Global,
    content: &mut Content,
    word: &str,
    ids: &[Id],
) -> Result<Option<String>, SourceFault> {
    if ids.is_empty() {
        let all = all_ids(&mut content.source.lists)?;
        return of_judge(alloc, content, word, &all);
    }
    of_judge(alloc, content, word, ids)
}

fn of_judge(
    alloc: Global,
    content: &mut Content,
    word: &str,
    ids: &[Id],
) -> Result<Option<String>, SourceFault> {
    let (source, cache, zone) = (&mut content.source, &mut content.cache, &content.zone);
    match word {
        "candidates" => Ok(Some(counts(alloc, source, cache, zone, ids)?)),
        "unkept" => Ok(Some(counts(alloc, source, &mut Whole::new(), zone, ids)?)),
        "statuses" => Ok(Some(statuses_told(alloc, content, ids)?)),
        "together" => Ok(Some(together(alloc, content, ids)?)),
        _ => Ok(None),
    }
}
