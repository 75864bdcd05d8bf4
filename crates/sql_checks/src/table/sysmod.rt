//! The table `sysmod`: the records of the catalogue.

use crate::checked::Checked;
use crate::shapes::{Rule, TableShape};
use crate::values::{are_ids, column, is_id};
use sql_rows::Sysmods;
use sql_tables::{NoMemory, sysmod_kind_in};
use sqlite::Row;
use sqlite_schema::schema::Kind;
use std::alloc::Global;

impl Checked for Sysmods {
    ghost use Rattle.std.specs.Prelude.{IsSome};
    ghost use Rattle.sqlite_value.specs.Order.{column};
    ghost use Rattle.sql_checks.specs.Known.{AreIdsColumn, IsIdColumn};
    ghost use Rattle.sql_tables.specs.Values.{sysmod_kind_in};

    ghost keeps_to = { λ row. IsIdColumn row 0 × IsSome (sysmod_kind_in (column row 1))
        × AreIdsColumn row 2 × AreIdsColumn row 3 × AreIdsColumn row 4 };

    fn shape() -> TableShape {
        TableShape {
            name: "sysmod",
            tree: 6,
            columns: &[
                ("id", Kind::Text, true),
                ("kind", Kind::Integer, true),
                ("fmids", Kind::Text, true),
                ("pre", Kind::Text, true),
                ("req", Kind::Text, true),
            ],
            key: None,
            primary: &[1],
            uniques: &[&[1]],
            rule: Some(Rule::UpTo(2, 3)),
        }
    }

    fn keeps(alloc: Global, row: &Row) -> Result<bool, NoMemory> {
        let fmids = are_ids(alloc, row, 2)?;
        let pre = are_ids(alloc, row, 3)?;
        let req = are_ids(alloc, row, 4)?;
        let kind = sysmod_kind_in(column(row, 1)).is_some();
        Ok(is_id(row, 0) && kind && fmids && pre && req)
    }

    ghost as_shown = { λ row. (λ keeps. keeps, λ keeps. keeps) };
}
