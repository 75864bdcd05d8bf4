//! The table `zone_head`: the clients' zones.

use crate::checked::Checked;
use crate::shapes::TableShape;
use crate::values::{are_patterns, is_id};
use sql_rows::Heads;
use sql_tables::NoMemory;
use sqlite::Row;
use sqlite_schema::schema::Kind;
use std::alloc::Global;

impl Checked for Heads {
    ghost use Rattle.sql_checks.specs.Known.{ArePatternsColumn, IsIdColumn};

    ghost keeps_to = { λ row. IsIdColumn row 0 × IsIdColumn row 1 × ArePatternsColumn row 2 };

    fn shape() -> TableShape {
        TableShape {
            name: "zone_head",
            tree: 13,
            columns: &[
                ("client", Kind::Text, true),
                ("zone", Kind::Text, true),
                ("patterns", Kind::Text, true),
            ],
            key: None,
            primary: &[1, 2],
            uniques: &[&[1, 2]],
            rule: None,
        }
    }

    fn keeps(alloc: Global, row: &Row) -> Result<bool, NoMemory> {
        let patterns = are_patterns(alloc, row, 2)?;
        Ok(is_id(row, 0) && is_id(row, 1) && patterns)
    }

    ghost as_shown = { λ row. (λ keeps. keeps, λ keeps. keeps) };
}
