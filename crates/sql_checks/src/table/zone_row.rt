//! The table `zone_row`: the SYSMODs of the zones.

use crate::checked::Checked;
use crate::shapes::{Rule, TableShape};
use crate::values::{column, is_id};
use sql_rows::ZoneRows;
use sql_tables::{NoMemory, state_in};
use sqlite::Row;
use sqlite_schema::schema::Kind;
use std::alloc::Global;

impl Checked for ZoneRows {
    ghost use Rattle.std.specs.Prelude.{IsSome};
    ghost use Rattle.sqlite_value.specs.Order.{column};
    ghost use Rattle.sql_checks.specs.Known.{IsIdColumn};
    ghost use Rattle.sql_tables.specs.Values.{state_in};

    ghost keeps_to = { λ row. IsIdColumn row 0 × IsIdColumn row 1 × IsIdColumn row 2 × IsSome (state_in (column row 3)) };

    fn shape() -> TableShape {
        TableShape {
            name: "zone_row",
            tree: 15,
            columns: &[
                ("client", Kind::Text, true),
                ("zone", Kind::Text, true),
                ("sysmod", Kind::Text, true),
                ("state", Kind::Integer, true),
            ],
            key: None,
            primary: &[1, 2, 3],
            uniques: &[&[1, 2, 3]],
            rule: Some(Rule::UpTo(4, 2)),
        }
    }

    fn keeps(_alloc: Global, row: &Row) -> Result<bool, NoMemory> {
        let state = state_in(column(row, 3)).is_some();
        Ok(is_id(row, 0) && is_id(row, 1) && is_id(row, 2) && state)
    }

    ghost as_shown = { λ row. (λ keeps. keeps, λ keeps. keeps) };
}
