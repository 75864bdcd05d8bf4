//! The table `sysmod_sup`: the ids that each record supersedes.

use crate::checked::Checked;
use crate::shapes::TableShape;
use crate::values::is_id;
use sql_rows::Sups;
use sql_tables::NoMemory;
use sqlite::Row;
use sqlite_schema::schema::Kind;
use std::alloc::Global;

impl Checked for Sups {
    ghost use Rattle.sql_checks.specs.Known.{IsIdColumn};

    ghost keeps_to = { λ row. IsIdColumn row 0 × IsIdColumn row 1 };

    fn shape() -> TableShape {
        TableShape {
            name: "sysmod_sup",
            tree: 8,
            columns: &[("id", Kind::Text, true), ("member", Kind::Text, true)],
            key: None,
            primary: &[1, 2],
            uniques: &[&[1, 2]],
            rule: None,
        }
    }

    fn keeps(_alloc: Global, row: &Row) -> Result<bool, NoMemory> {
        Ok(is_id(row, 0) && is_id(row, 1))
    }

    ghost as_shown = { λ row. (λ keeps. keeps, λ keeps. keeps) };
}
