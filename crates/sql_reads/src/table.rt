//! The tables of a store, each with the reads of that table alone.
ghost use Rattle.sql_reads.specs.Columns.{ShowEach, ShowsAll, tables_of_version_1};
ghost use Rattle.sql_texts.specs.Schema as schema;

pub(crate) mod caller;
pub(crate) mod hold_row;
pub(crate) mod last_change;
pub(crate) mod received_list;
pub(crate) mod sysmod;
pub(crate) mod sysmod_cond;
pub(crate) mod sysmod_sup;
pub(crate) mod zone_head;
pub(crate) mod zone_row;

use crate::all_columns::AllColumns;
use sql_rows::{Callers, Conds, Heads, Holds, LastChanges, Received, Sups, Sysmods, ZoneRows};

/// The text that shows all columns of each table of version 1, apart from that of the version itself. It means the same
/// in a file of either version.
pub fn columns_of_tables() -> [&'static str; 8]
    ensures here { ShowEach schema.bureau tables_of_version_1 result }
    ensures version_1 { ShowEach schema.bureau_1 tables_of_version_1 result }
{
    [
        Callers::all_columns(),
        LastChanges::all_columns(),
        Sysmods::all_columns(),
        Sups::all_columns(),
        Holds::all_columns(),
        Heads::all_columns(),
        ZoneRows::all_columns(),
        Received::all_columns(),
    ]
}

/// The same of the table that only version 2 has, that of requisites under a condition.
pub fn columns_of_conditions() -> &'static str
    ensures { ShowsAll schema.bureau schema.sysmod_cond result.now }
{
    Conds::all_columns()
}
