//! The table `hold_row`: the holds.

use crate::checked::Checked;
use crate::shapes::{Rule, TableShape};
use sql_rows::Holds;
use sql_tables::{NoMemory, hold_in};
use sqlite::Row;
use sqlite_schema::schema::Kind;
use std::alloc::Global;

impl Checked for Holds {
    ghost use Rattle.std.specs.Prelude.{IsSome};
    ghost use Rattle.sql_tables.specs.Rows.{hold_found};

    ghost keeps_to = { λ row. IsSome (hold_found row) };

    fn shape() -> TableShape {
        TableShape {
            name: "hold_row",
            tree: 11,
            columns: &[
                ("sysmod", Kind::Text, true),
                ("kind", Kind::Integer, true),
                ("reason", Kind::Text, true),
                ("fmid", Kind::Text, true),
                ("class", Kind::Text, true),
                ("dated", Kind::Integer, true),
                ("resolver", Kind::Text, true),
                ("categories", Kind::Text, true),
            ],
            key: None,
            primary: &[1, 2, 3],
            uniques: &[&[1, 2, 3]],
            rule: Some(Rule::UpTo(2, 3)),
        }
    }

    fn keeps(alloc: Global, row: &Row) -> Result<bool, NoMemory> {
        Ok(hold_in(alloc, row)?.is_some())
    }

    ghost as_shown = { λ row. (λ keeps. keeps, λ keeps. keeps) };
}
