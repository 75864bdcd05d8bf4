//! The table `last_change`: the number of each caller's last change, and the reply that is kept for it.

use crate::checked::Checked;
use crate::shapes::{Rule, TableShape};
use crate::values::{is_blob, is_id, is_number};
use sql_rows::LastChanges;
use sql_tables::NoMemory;
use sqlite::Row;
use sqlite_schema::schema::Kind;
use sqlite_sql::ops::CompareOp;
use std::alloc::Global;

impl Checked for LastChanges {
    ghost use Rattle.std.specs.Prelude.{IsSome};
    ghost use Rattle.sqlite_value.specs.Order.{column};
    ghost use Rattle.sql_checks.specs.Known.{IsIdColumn};
    ghost use Rattle.sql_tables.specs.Values.{bytes_in, number_in};

    ghost keeps_to = { λ row. IsIdColumn row 0 × IsSome (number_in (column row 1)) × IsSome (bytes_in (column row 2)) };

    fn shape() -> TableShape {
        TableShape {
            name: "last_change",
            tree: 4,
            columns: &[
                ("caller", Kind::Text, true),
                ("number", Kind::Integer, true),
                ("body", Kind::Blob, true),
            ],
            key: None,
            primary: &[1],
            uniques: &[&[1]],
            rule: Some(Rule::Compared(CompareOp::Gt, 2, 0)),
        }
    }

    fn keeps(_alloc: Global, row: &Row) -> Result<bool, NoMemory> {
        Ok(is_id(row, 0) && is_number(row, 1) && is_blob(row, 2))
    }

    ghost as_shown = { λ row. (λ keeps. keeps, λ keeps. keeps) };
}
