//! The hold book in print.
ghost use Rattle.std.specs.Prelude.{◌≡◌, ◌++◌, ◌∷◌, [], ℕ, List, map, Option, OnOk, IfOk};
ghost use Rattle.std.specs.Option.{option_map};
ghost use Rattle.mcs_reader.specs.Bytes.{bytes_of_each};
ghost use Rattle.holddata.specs.declared.hold.Hold.{Hold};
ghost use Rattle.holddata.specs.HoldKey.{kind_name};
ghost use Rattle.columns.specs.Table.{table_with};
ghost use Rattle.holddata.specs.BookText.{hold_columns, hold_fields, id_field, date_field, category_field};
ghost use Rattle.holddata.specs.Date.{date_digits};

use crate::{Categories, Date, Hold, Kind, NoMemory};
use columns::{Column, Table};
use mcs_reader::Id;
use std::alloc::Global;

// The column at which each field begins, and its name.
const COLUMNS: [Column; 8] = [
    Column {
        start: 1,
        name: b"SYSMOD",
    },
    Column {
        start: 10,
        name: b"KIND",
    },
    Column {
        start: 18,
        name: b"REASON",
    },
    Column {
        start: 27,
        name: b"FMID",
    },
    Column {
        start: 36,
        name: b"CLASS",
    },
    Column {
        start: 45,
        name: b"DATE",
    },
    Column {
        start: 52,
        name: b"RESOLVER",
    },
    Column {
        start: 61,
        name: b"CATEGORY",
    },
];

// The text for an absent field.
const ABSENT: &[u8] = b"-";

/// A table for holds.
pub(crate) fn hold_table(alloc: Global) -> Result<Table<'static>, NoMemory>
    ensures { IfOk result (λ table. table ≡ table_with hold_columns None []) }
{
    Table::new(alloc, &COLUMNS, None)
}

/// Adds the row of a hold.
pub(crate) fn push_hold(table: &mut Table, hold: &Hold) -> Result<(), NoMemory>
    ensures { (holds : List Hold) → table.old ≡ table_with hold_columns None (map hold_fields holds) →
        OnOk result (table.new ≡ table_with hold_columns None (map hold_fields (holds ++ hold.now ∷ []))) }
{
    let digits = hold.dated.map(Date::digits);
    let fields = fields_of(hold, date_field(&digits));
    table.push(&fields)
}

// The fields of a hold's row.
fn fields_of<'a>(hold: &'a Hold, date: &'a [u8]) -> [&'a [u8]; 8]
    ensures { date.now ≡ date_field hold.now.dated → bytes_of_each result ≡ hold_fields hold.now }
{
    [
        hold.key.sysmod.as_bytes(),
        kind_field(&hold.key.kind),
        hold.key.reason.as_bytes(),
        id_field(&hold.fmid),
        id_field(&hold.class),
        date,
        id_field(&hold.resolver),
        category_field(&hold.categories),
    ]
}

fn kind_field(kind: &Kind) -> &[u8]
    ensures { result.now ≡ kind_name kind.now }
{
    kind.name().as_bytes()
}

fn id_field(id: &Option<Id>) -> &[u8]
    ensures { result.now ≡ id_field id.now }
{
    match id {
        Some(id) => id.as_bytes(),
        None => ABSENT,
    }
}

fn date_field(digits: &Option<[u8; 5]>) -> &[u8]
    ensures { (date : Option ℕ) → digits.now ≡ option_map date_digits date → result.now ≡ date_field date }
{
    match digits {
        Some(digits) => digits,
        None => ABSENT,
    }
}

// The categories with commas between, or `-` if there are none.
fn category_field(categories: &Categories) -> &[u8]
    ensures { result.now ≡ category_field categories.now }
{
    if categories.is_empty() {
        ABSENT
    } else {
        categories.joined()
    }
}
