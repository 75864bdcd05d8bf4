//! The text of how much a store has.
ghost use Rattle.std.specs.Prelude.{◌≡◌, ◌++◌, ◌∷◌, [], ℕ, List, Option, decimal, length, IfOk, OnOk};
ghost use Rattle.columns.specs.Table.{table_with};
ghost use Rattle.sql_checks.specs.Tally as spec;

use crate::tallies::{CallerLine, StoreTally};
use columns::{Column, Table};
use itoa::Buffer;
use sql_tables::NoMemory;
use std::alloc::Global;

// The column at which each field begins, and its name.
const COLUMNS: [Column; 4] = [
    Column {
        start: 1,
        name: b"CALLER",
    },
    Column {
        start: 10,
        name: b"ZONES",
    },
    Column {
        start: 17,
        name: b"ROWS",
    },
    Column {
        start: 29,
        name: b"LAST",
    },
];

/// Prints how much a store has, in columns. The title has the version and the numbers of callers, SYSMODs and
/// holds. Each caller has a row: its zones, the rows of all of them, and the number of its last change.
///
/// # Errors
///
/// Memory ran out.
pub fn tally_text(alloc: Global, tally: &StoreTally) -> Result<Vec<u8>, NoMemory>
    ensures { IfOk result (λ text. text.items ≡ spec.tally_text tally.now) }
{
    let title = title(alloc, tally)?;
    let mut table = Table::new(alloc, &COLUMNS, Some(title.as_slice()))?;
    let lines = tally.callers.as_slice();
    for line in lines {
        push_line(&mut table, line)?;
    }
    table.finish()
}

fn title(alloc: Global, tally: &StoreTally) -> Result<Vec<u8>, NoMemory>
    ensures { IfOk result (λ title. title.items
        ≡ spec.tally_title (length tally.now.callers.items) tally.now.sysmods tally.now.holds) }
{
    let mut title = Vec::new(alloc);
    title.extend_from_slice(b"STORE VERSION 2 CALLERS ")?;
    push_number(&mut title, tally.callers.len() as u64)?;
    title.extend_from_slice(b" SYSMODS ")?;
    push_number(&mut title, tally.sysmods)?;
    title.extend_from_slice(b" HOLDS ")?;
    push_number(&mut title, tally.holds)?;
    Ok(title)
}

fn push_line(table: &mut Table<'_>, line: &CallerLine) -> Result<(), NoMemory>
    ensures { (columns : List (ℕ × List ℕ)) (title : Option (List ℕ)) (rows : List (List (List ℕ)))
        → table.old ≡ table_with columns title rows
        → OnOk result (table.new ≡ table_with columns title (rows ++ spec.tally_fields line.now ∷ [])) }
{
    table.push(&[
        line.name.as_bytes(),
        Buffer::new().format(line.has.zones).as_bytes(),
        Buffer::new().format(line.has.rows).as_bytes(),
        Buffer::new().format(line.has.last).as_bytes(),
    ])
}

fn push_number(text: &mut Vec<u8>, number: u64) -> Result<(), NoMemory>
    ensures { OnOk result (text.new.items ≡ text.old.items ++ decimal number) }
{
    text.extend_from_slice(Buffer::new().format(number).as_bytes())
}
