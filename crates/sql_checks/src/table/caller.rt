//! The table `caller`: the callers with their tokens.

use crate::checked::Checked;
use crate::shapes::TableShape;
use crate::values::{is_id, is_token};
use sql_rows::Callers;
use sql_tables::NoMemory;
use sqlite::Row;
use sqlite_schema::schema::Kind;
use std::alloc::Global;

impl Checked for Callers {
    ghost use Rattle.sql_checks.specs.Known.{IsIdColumn, IsTokenColumn};

    ghost keeps_to = { λ row. IsIdColumn row 0 × IsTokenColumn row 1 };

    fn shape() -> TableShape {
        TableShape {
            name: "caller",
            tree: 1,
            columns: &[("name", Kind::Text, true), ("token", Kind::Text, true)],
            key: None,
            primary: &[1],
            uniques: &[&[1], &[2]],
            rule: None,
        }
    }

    fn keeps(_alloc: Global, row: &Row) -> Result<bool, NoMemory> {
        Ok(is_id(row, 0) && is_token(row, 1))
    }

    ghost as_shown = { λ row. (λ keeps. keeps, λ keeps. keeps) };
}
