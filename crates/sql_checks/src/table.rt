//! The tables of a store. Each has a file of its own, which says how it is made and which rules its rows have.
ghost use Rattle.std.specs.Prelude.{◌≡◌, map};
ghost use Rattle.sql_checks.specs.Shapes.{index_of_shape, table_of_shape};
ghost use Rattle.sql_texts.specs.Schema as made;

mod bureau_version;
mod caller;
mod hold_row;
mod last_change;
mod received_list;
mod sysmod;
mod sysmod_cond;
mod sysmod_sup;
mod zone_head;
mod zone_row;

use crate::checked::{Checked, Listed};
use crate::looking::rows_keep;
use crate::shapes::{IndexShape, TableShape};
use sql_reads::ReadFault;
use sql_rows::{
    Callers, Conds, Heads, Holds, LastChanges, Received, Sups, Sysmods, Table, ZoneRows,
};
use sqlite::{Alter, Connection};
use std::alloc::Global;

/// A table of a store, apart from that of the version.
#[derive(Clone, Copy, Debug, PartialEq, Eq)]
pub enum StoreTable {
    /// The callers with their tokens.
    Caller,
    /// The number of each caller's last change, and the reply that is kept for it.
    LastChange,
    /// The records of the catalogue.
    Sysmod,
    /// The ids that each record supersedes.
    SysmodSup,
    /// The ids that each record requires if a function is installed.
    SysmodCond,
    /// The holds.
    HoldRow,
    /// The clients' zones.
    ZoneHead,
    /// The SYSMODs of the zones.
    ZoneRow,
    /// The SYSMODs that each client has received.
    ReceivedList,
}

// All of them, in the order in which they are declared and checked.
const TABLES: [StoreTable; 9] = [
    StoreTable::Caller,
    StoreTable::LastChange,
    StoreTable::Sysmod,
    StoreTable::SysmodSup,
    StoreTable::SysmodCond,
    StoreTable::HoldRow,
    StoreTable::ZoneHead,
    StoreTable::ZoneRow,
    StoreTable::ReceivedList,
];

impl Listed for StoreTable {
    ghost use Rattle.sql_checks.specs.Known.{known_by};
    ghost use Rattle.sql_checks.specs.declared.table.StoreTable.TheVariants.{Caller, LastChange, Sysmod, SysmodSup, SysmodCond, HoldRow, ZoneHead, ZoneRow, ReceivedList};

    ghost known = { elim [
      | Caller ↦ known_by ⟦<Callers as Table>⟧.table ⟦<Callers as Table>⟧.rows ⟦<Callers as Checked>⟧.keeps_to
      | LastChange ↦ known_by ⟦<LastChanges as Table>⟧.table ⟦<LastChanges as Table>⟧.rows
          ⟦<LastChanges as Checked>⟧.keeps_to
      | Sysmod ↦ known_by ⟦<Sysmods as Table>⟧.table ⟦<Sysmods as Table>⟧.rows ⟦<Sysmods as Checked>⟧.keeps_to
      | SysmodSup ↦ known_by ⟦<Sups as Table>⟧.table ⟦<Sups as Table>⟧.rows ⟦<Sups as Checked>⟧.keeps_to
      | SysmodCond ↦ known_by ⟦<Conds as Table>⟧.table ⟦<Conds as Table>⟧.rows ⟦<Conds as Checked>⟧.keeps_to
      | HoldRow ↦ known_by ⟦<Holds as Table>⟧.table ⟦<Holds as Table>⟧.rows ⟦<Holds as Checked>⟧.keeps_to
      | ZoneHead ↦ known_by ⟦<Heads as Table>⟧.table ⟦<Heads as Table>⟧.rows ⟦<Heads as Checked>⟧.keeps_to
      | ZoneRow ↦ known_by ⟦<ZoneRows as Table>⟧.table ⟦<ZoneRows as Table>⟧.rows
          ⟦<ZoneRows as Checked>⟧.keeps_to
      | ReceivedList ↦ known_by ⟦<Received as Table>⟧.table ⟦<Received as Table>⟧.rows
          ⟦<Received as Checked>⟧.keeps_to
    ] };
}

impl StoreTable {
    ghost use Rattle.std.specs.Prelude.{false};
    ghost use Rattle.std.specs.List.{AllByRecursion};
    ghost use Rattle.sqlite.specs.Held.{state};
    ghost use Rattle.sql_checks.specs.Kept.{AreKept, KeepTo, known_of, table_name};
    ghost use Rattle.sql_checks.specs.Looked.{IsLooked};
    ghost use Rattle.sql_tables.specs.Stored.{Stored};

    /// All of them.
    pub(crate) fn all() -> [StoreTable; 9]
        ensures { (stored : Stored) → AllByRecursion (λ table. KeepTo table stored) result → AreKept stored }
    {
        TABLES
    }

    /// The name of the table in the database.
    pub fn name(self) -> &'static str
        ensures { result.now ≡ table_name self }
    {
        match self {
            StoreTable::Caller => "caller",
            StoreTable::LastChange => "last_change",
            StoreTable::Sysmod => "sysmod",
            StoreTable::SysmodSup => "sysmod_sup",
            StoreTable::SysmodCond => "sysmod_cond",
            StoreTable::HoldRow => "hold_row",
            StoreTable::ZoneHead => "zone_head",
            StoreTable::ZoneRow => "zone_row",
            StoreTable::ReceivedList => "received_list",
        }
    }

    /// Whether the bureau writes such rows as all rows of the table are.
    ///
    /// # Errors
    ///
    /// Those of [`ReadFault`].
    pub(crate) fn rows_keep<S: Alter>(
        self,
        alloc: Global,
        conn: &mut Connection<S>,
    ) -> Result<bool, ReadFault>
        requires rest { conn.old.in_transaction ≡ false }
        ensures mode { conn.new.in_transaction ≡ false }
        ensures looked { IsLooked (known_of self) (state S.Store conn.old) (state S.Store conn.new) result }
    {
        match self {
            StoreTable::Caller => rows_keep::<Callers, S>(alloc, conn),
            StoreTable::LastChange => rows_keep::<LastChanges, S>(alloc, conn),
            StoreTable::Sysmod => rows_keep::<Sysmods, S>(alloc, conn),
            StoreTable::SysmodSup => rows_keep::<Sups, S>(alloc, conn),
            StoreTable::SysmodCond => rows_keep::<Conds, S>(alloc, conn),
            StoreTable::HoldRow => rows_keep::<Holds, S>(alloc, conn),
            StoreTable::ZoneHead => rows_keep::<Heads, S>(alloc, conn),
            StoreTable::ZoneRow => rows_keep::<ZoneRows, S>(alloc, conn),
            StoreTable::ReceivedList => rows_keep::<Received, S>(alloc, conn),
        }
    }
}

/// The tables of version 2, as the bureau makes them.
pub(crate) fn tables() -> [TableShape; 10]
    ensures { map table_of_shape result ≡ made.tables }
{
    [
        bureau_version::shape(),
        Callers::shape(),
        LastChanges::shape(),
        Sysmods::shape(),
        Sups::shape(),
        Holds::shape(),
        Heads::shape(),
        ZoneRows::shape(),
        Received::shape(),
        Conds::shape(),
    ]
}

/// The indexes of all keys, and the one by which superseders are found.
pub(crate) fn indexes() -> [IndexShape; 11]
    ensures { map index_of_shape result ≡ made.indexes }
{
    [
        IndexShape {
            name: "sqlite_autoindex_caller_1",
            tree: 2,
            table: 1,
            columns: &[1],
            is_unique: true,
        },
        IndexShape {
            name: "sqlite_autoindex_caller_2",
            tree: 3,
            table: 1,
            columns: &[2],
            is_unique: true,
        },
        IndexShape {
            name: "sqlite_autoindex_last_change_1",
            tree: 5,
            table: 4,
            columns: &[1],
            is_unique: true,
        },
        IndexShape {
            name: "sqlite_autoindex_sysmod_1",
            tree: 7,
            table: 6,
            columns: &[1],
            is_unique: true,
        },
        IndexShape {
            name: "sqlite_autoindex_sysmod_sup_1",
            tree: 9,
            table: 8,
            columns: &[1, 2],
            is_unique: true,
        },
        IndexShape {
            name: "by_member",
            tree: 10,
            table: 8,
            columns: &[2, 1],
            is_unique: false,
        },
        IndexShape {
            name: "sqlite_autoindex_hold_row_1",
            tree: 12,
            table: 11,
            columns: &[1, 2, 3],
            is_unique: true,
        },
        IndexShape {
            name: "sqlite_autoindex_zone_head_1",
            tree: 14,
            table: 13,
            columns: &[1, 2],
            is_unique: true,
        },
        IndexShape {
            name: "sqlite_autoindex_zone_row_1",
            tree: 16,
            table: 15,
            columns: &[1, 2, 3],
            is_unique: true,
        },
        IndexShape {
            name: "sqlite_autoindex_received_list_1",
            tree: 18,
            table: 17,
            columns: &[1],
            is_unique: true,
        },
        IndexShape {
            name: "sqlite_autoindex_sysmod_cond_1",
            tree: 20,
            table: 19,
            columns: &[1, 2, 3],
            is_unique: true,
        },
    ]
}
