//! The number of reads that questions take, and the outcome of a read that fails.
use crate::asked::{statuses, told, touched_by};
use crate::catalogued::changes_of;
use crate::content::Content;
use crate::print::number;
use bureau_store::ListStore;
use catalogue::{Change, Ids, Published, SourceFault};
use chains::Whole;
use holddata::{Hold, Kind};
use mcs_reader::Id;
use reports::{err_rows, missing_rows, plan_json};
use std::alloc::Global;
use std::test::Fail;
use supersede::{Zone, givers};
use testing_rows::Row;
use verdicts::Judge;
use zone_lists::Pattern;

// The subject of a question.
struct Asked {
    id: Id,
    changes: Vec<Change>,
    errors: Vec<Hold>,
    fixes: Vec<Hold>,
}

// By hand, so that a function that owns one drops it by one call.
impl Drop for Asked {
    fn drop(self) {
        let Asked {
            id: _,
            changes,
            errors,
            fixes,
        } = self;
        drop(changes);
        drop(errors);
        drop(fixes);
    }
}

// Adds the holds of a kind on a SYSMOD, in the order of their keys.
fn put_holds(
    held: &mut Vec<Hold>,
    lists: &mut ListStore,
    id: &Id,
    kind: Kind,
) -> Result<(), SourceFault> {
    for hold in lists.holds_on(id)? {
        if hold.key.kind == kind {
            held.push(hold)?;
        }
    }
    Ok(())
}

// The holds of a kind on installed SYSMODs.
fn held(
    alloc: Global,
    lists: &mut ListStore,
    zone: &Zone,
    kind: Kind,
) -> Result<Vec<Hold>, SourceFault> {
    let mut held = Vec::new(alloc);
    for row in zone.rows() {
        if row.state.is_installed() {
            put_holds(&mut held, lists, &row.sysmod, kind)?;
        }
    }
    Ok(held)
}

fn what_is_asked(alloc: Global, content: &mut Content, row: &Row, id: Id) -> Result<Asked, Fail> {
    let changes = changes_of(alloc, &row.given)?;
    let (lists, zone) = (&mut content.source.lists, &content.zone);
    let errors = held(alloc, lists, zone, Kind::ErrorHold)?;
    let fixes = held(alloc, lists, zone, Kind::FixcatHold)?;
    Ok(Asked {
        id,
        changes,
        errors,
        fixes,
    })
}

fn chain<P: Published>(
    alloc: Global,
    source: &mut P,
    zone: &Zone,
    id: &Id,
) -> Result<(), SourceFault> {
    let verdict = Whole::new().verdict(alloc, source, zone, id)?;
    plan_json(alloc, source, id, id, &verdict)?;
    Ok(())
}

fn errors<P: Published>(
    alloc: Global,
    source: &mut P,
    zone: &Zone,
    holds: &[Hold],
) -> Result<(), SourceFault> {
    let none = Ids::new(alloc);
    err_rows(
        alloc,
        source,
        &mut Whole::new(),
        zone,
        none.as_slice(),
        holds,
    )?;
    Ok(())
}

fn missing<P: Published>(
    alloc: Global,
    source: &mut P,
    zone: &Zone,
    patterns: &[Pattern],
    holds: &[Hold],
) -> Result<(), SourceFault> {
    let none = Ids::new(alloc);
    missing_rows(
        alloc,
        source,
        &mut Whole::new(),
        zone,
        none.as_slice(),
        patterns,
        holds,
    )?;
    Ok(())
}

// Asks a question. Returns whether there is such a one.
fn ask(
    alloc: Global,
    content: &mut Content,
    word: &str,
    asked: &Asked,
) -> Result<bool, SourceFault> {
    let (source, zone, id) = (&mut content.source, &content.zone, &asked.id);
    match word {
        "givers" => drop(givers(alloc, source, id)?),
        "touched" => drop(touched_by(alloc, source, &asked.changes)?),
        "verdict" => drop(told(alloc, source, &mut Whole::new(), zone, id)?),
        "statuses" => drop(statuses(alloc, source, &mut Whole::new(), zone, &[*id])?),
        "chain" => chain(alloc, source, zone, id)?,
        "errors" => errors(alloc, source, zone, &asked.errors)?,
        "missing" => missing(alloc, source, zone, &content.patterns, &asked.fixes)?,
        _ => return Ok(false),
    }
    Ok(true)
}

/// The number of reads that a question takes, or `None` if there is no such one.
pub(crate) fn reads(
    alloc: Global,
    content: &mut Content,
    row: &Row,
    word: &str,
    id: Id,
) -> Result<Option<String>, Fail> {
    let asked = what_is_asked(alloc, content, row, id)?;
    content.answer(u64::MAX);
    if !ask(alloc, content, word, &asked)? {
        return Ok(None);
    }
    Ok(Some(number(alloc, u64::MAX - content.source.left)?))
}

/// The same, while each of its reads in turn fails, and is passed on at once.
pub(crate) fn fails(
    alloc: Global,
    content: &mut Content,
    row: &Row,
    word: &str,
    id: Id,
) -> Result<Option<String>, Fail> {
    let asked = what_is_asked(alloc, content, row, id)?;
    for calls in 0..1_000u64 {
        content.answer(calls);
        match ask(alloc, content, word, &asked) {
            Ok(is_known) => return answered(alloc, content, is_known, calls),
            Err(fault) => passed_on(content, fault)?,
        }
    }
    Err(Fail::from("a question never has an answer"))
}

fn answered(
    alloc: Global,
    content: &mut Content,
    is_known: bool,
    calls: u64,
) -> Result<Option<String>, Fail> {
    content.answer(u64::MAX);
    if is_known {
        return Ok(Some(number(alloc, calls)?));
    }
    Ok(None)
}

// Checks that a failed read was told, and that nothing was read after it.
fn passed_on(content: &Content, fault: SourceFault) -> Result<(), Fail> {
    match (fault, content.source.failures) {
        (SourceFault::Device, 1) => Ok(()),
        (SourceFault::Device, _) => Err(Fail::from("a question reads on after a failure")),
        (SourceFault::Memory, _) => Err(Fail::from("a failure is told as want of memory")),
    }
}
