//! The table `sysmod_cond`: the ids that each record requires if a function is installed.

use crate::checked::Checked;
use crate::shapes::TableShape;
use crate::values::is_id;
use sql_rows::Conds;
use sql_tables::NoMemory;
use sqlite::Row;
use sqlite_schema::schema::Kind;
use std::alloc::Global;

impl Checked for Conds {
    ghost use Rattle.sql_checks.specs.Known.{IsIdColumn};

    ghost keeps_to = { λ row. IsIdColumn row 0 × IsIdColumn row 1 × IsIdColumn row 2 };

    fn shape() -> TableShape {
        TableShape {
            name: "sysmod_cond",
            tree: 19,
            columns: &[
                ("id", Kind::Text, true),
                ("fmid", Kind::Text, true),
                ("member", Kind::Text, true),
            ],
            key: None,
            primary: &[1, 2, 3],
            uniques: &[&[1, 2, 3]],
            rule: None,
        }
    }

    fn keeps(_alloc: Global, row: &Row) -> Result<bool, NoMemory> {
        Ok(is_id(row, 0) && is_id(row, 1) && is_id(row, 2))
    }

    ghost as_shown = { λ row. (λ keeps. keeps, λ keeps. keeps) };
}
