//! The table `received_list`: the SYSMODs that each client has received.

use crate::checked::Checked;
use crate::shapes::TableShape;
use crate::values::{are_ids, is_id};
use sql_rows::Received;
use sql_tables::NoMemory;
use sqlite::Row;
use sqlite_schema::schema::Kind;
use std::alloc::Global;

impl Checked for Received {
    ghost use Rattle.sql_checks.specs.Known.{AreIdsColumn, IsIdColumn};

    ghost keeps_to = { λ row. IsIdColumn row 0 × AreIdsColumn row 1 };

    fn shape() -> TableShape {
        TableShape {
            name: "received_list",
            tree: 17,
            columns: &[("client", Kind::Text, true), ("ids", Kind::Text, true)],
            key: None,
            primary: &[1],
            uniques: &[&[1]],
            rule: None,
        }
    }

    fn keeps(alloc: Global, row: &Row) -> Result<bool, NoMemory> {
        let ids = are_ids(alloc, row, 1)?;
        Ok(is_id(row, 0) && ids)
    }

    ghost as_shown = { λ row. (λ keeps. keeps, λ keeps. keeps) };
}
