//! Whether a database is the bureau's own, with all its rows.
ghost use Rattle.std.specs.Prelude.{◌≡◌, ◌↔◌, IfErr, IfOk, IsTrue, false};
ghost use Rattle.sqlite.specs.Held.{state};
ghost use Rattle.sqlite.specs.State.{HasCleanDisk};
ghost use Rattle.sql_checks.specs.Checked.{AreOthers, Finds, IsFound, IsPublisherSeen, IsRowSeen, IsSeen, Looks};
ghost use Rattle.sql_checks.specs.Refused.{AreUnseen, IsCausedBy, IsUnread, IsUnseen};
ghost use Rattle.sql_texts.specs.Schema.{bureau};

use crate::law::sound;
use crate::order::lists_all;
use crate::publisher::has_publisher;
use crate::scan::{is_version_2, wrong_among};
use crate::schema::is_store_schema;
use crate::table::StoreTable;
use sql_reads::ReadFault;
use sqlite::{Alter, Connection};
use std::alloc::Global;

/// The finding on a database.
#[derive(Clone, Copy, Debug, PartialEq, Eq)]
pub enum Finding {
    /// It has the tables of version 2, the bureau writes each of its rows, and one of its callers is the publisher.
    Whole,
    /// Its tables or its indexes are others, or are made in another way.
    OtherTables,
    /// They are those of version 2, and are listed in another order, as after SQLite's VACUUM.
    OtherOrder,
    /// Its tables have another version, or none.
    OtherVersion,
    /// A row of this table isn't one that the bureau writes.
    WrongRow(StoreTable),
    /// None of its callers is the publisher.
    NoPublisher,
}

// Whether a connection has the tables of version 2, made as the bureau makes them.
fn has_tables<S: Alter>(alloc: Global, conn: &Connection<S>) -> Result<bool, ReadFault>
    requires { conn.now.in_transaction ≡ false }
    ensures has { IfOk result (λ has. IsTrue (state S.Store conn.now).is_open
        → IsTrue has ↔ ((state S.Store conn.now).committed.schema ≡ bureau)) }
    ensures memory { IfErr result (λ fault. fault ≡ ReadFault.Memory) }
{
    let _settled = conn.is_autocommit();
    Ok(is_store_schema(alloc, conn.schema())?)
}

// The finding on tables that aren't those of version 2, made and listed as the bureau makes them.
fn other_tables<S: Alter>(alloc: Global, conn: &Connection<S>) -> Result<Finding, ReadFault>
    requires { conn.now.in_transaction ≡ false }
    ensures finding { IfOk result (λ finding. IsTrue (state S.Store conn.now).is_open
        → AreOthers (state S.Store conn.now).committed.schema finding) }
    ensures memory { IfErr result (λ fault. fault ≡ ReadFault.Memory) }
{
    let _settled = conn.is_autocommit();
    if lists_all(alloc, conn.schema())? {
        Ok(Finding::OtherOrder)
    } else {
        Ok(Finding::OtherTables)
    }
}

/// Looks through a database: its tables, their version, each row of them, and whether it has a publisher.
///
/// # Errors
///
/// Those of [`ReadFault`].
pub fn check<S: Alter>(alloc: Global, conn: &mut Connection<S>) -> Result<Finding, ReadFault>
    requires rest { conn.old.in_transaction ≡ false }
    ensures mode { conn.new.in_transaction ≡ false }
    ensures finds { Finds (state S.Store conn.old) (state S.Store conn.new) result IsFound }
    ensures cause { IfErr result (λ fault. fault ≡ ReadFault.Device → HasCleanDisk (state S.Store conn.new)
        → IsCausedBy IsUnread (state S.Store conn.old) (state S.Store conn.new)) }
{
    sound(conn);
    match has_tables(alloc, conn) {
        Ok(true) => look_through(alloc, conn),
        Ok(false) => other_tables(alloc, conn),
        Err(fault) => Err(fault),
    }
}

// The same of a connection that has the tables.
fn look_through<S: Alter>(alloc: Global, conn: &mut Connection<S>) -> Result<Finding, ReadFault>
    requires rest { conn.old.in_transaction ≡ false }
    ensures mode { conn.new.in_transaction ≡ false }
    ensures looks { Looks (state S.Store conn.old) (state S.Store conn.new) result IsSeen }
    ensures cause { IfErr result (λ fault. fault ≡ ReadFault.Device → HasCleanDisk (state S.Store conn.new)
        → IsCausedBy IsUnseen (state S.Store conn.old) (state S.Store conn.new)) }
{
    match is_version_2(conn) {
        Ok(true) => look_at_rows(alloc, conn),
        Ok(false) => Ok(Finding::OtherVersion),
        Err(fault) => Err(fault),
    }
}

// The first table with a wrong row, if there is one; else whether there is a publisher.
fn look_at_rows<S: Alter>(alloc: Global, conn: &mut Connection<S>) -> Result<Finding, ReadFault>
    requires rest { conn.old.in_transaction ≡ false }
    ensures mode { conn.new.in_transaction ≡ false }
    ensures looks { Looks (state S.Store conn.old) (state S.Store conn.new) result IsRowSeen }
    ensures cause { IfErr result (λ fault. fault ≡ ReadFault.Device → HasCleanDisk (state S.Store conn.new)
        → IsCausedBy AreUnseen (state S.Store conn.old) (state S.Store conn.new)) }
{
    match wrong_among(alloc, conn, &StoreTable::all()) {
        Ok(Some(table)) => Ok(Finding::WrongRow(table)),
        Ok(None) => look_for_publisher(conn),
        Err(fault) => Err(fault),
    }
}

// The finding on rows of which none is wrong.
fn look_for_publisher<S: Alter>(conn: &mut Connection<S>) -> Result<Finding, ReadFault>
    requires rest { conn.old.in_transaction ≡ false }
    ensures mode { conn.new.in_transaction ≡ false }
    ensures looks { Looks (state S.Store conn.old) (state S.Store conn.new) result IsPublisherSeen }
    ensures cause { IfErr result (λ fault. fault ≡ ReadFault.Device → HasCleanDisk (state S.Store conn.new)
        → IsCausedBy AreUnseen (state S.Store conn.old) (state S.Store conn.new)) }
{
    match has_publisher(conn) {
        Ok(true) => Ok(Finding::Whole),
        Ok(false) => Ok(Finding::NoPublisher),
        Err(fault) => Err(fault),
    }
}
