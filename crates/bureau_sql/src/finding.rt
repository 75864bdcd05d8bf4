//! Whether a connection holds a store.
ghost use Rattle.std.specs.Prelude.{◌≡◌, ◌≢◌, ◌∷◌, [], codes, IfErr, IsTrue, None, OnOk, Some, false};
ghost use Rattle.std.specs.List.{AllByRecursion};
ghost use Rattle.bureau_store.specs.declared.fault.StoreFault.TheVariants.{Version};
ghost use Rattle.sqlite.specs.Held.{state};
ghost use Rattle.sqlite.specs.State.{HasCleanDisk};
ghost use Rattle.sql_tables.specs.Earlier.{IsOfVersion1};
ghost use Rattle.sql_tables.specs.Ours.{IsOurs};
ghost use Rattle.sql_tables.specs.Reading.{OnlyReads};
ghost use Rattle.sql_reads.specs.Version.{HasVersion};
ghost use Rattle.bureau_sql.specs.Opening.{HasConditions, HasTables, IsNoStore, IsAskedBy, IsOneStatement, IsOther, IsOutOfReach, IsSeen, IsToldOf, IsUnderstood, LacksMore, LacksTables, LacksText, LacksVersion, TellsVersion, of_version};
ghost use Rattle.sql_texts.specs.Meaning.{Reads};
ghost use Rattle.sql_texts.specs.Reads as read;
ghost use Rattle.sql_texts.specs.Schema.{bureau_1};
ghost use Rattle.bureau_sql.specs.SqlView.{IsAtRest};

use crate::probe::look;
use bureau_store::StoreFault;
use sql_reads::{ReadFault, columns_of_conditions, columns_of_tables, version};
use sql_texts::read;
use sqlite::{Connection, Error, ErrorCode};
use sqlite_trees::store::Alter;

// Whether a text means something with the tables that the connection has. It doesn't run the text.
fn can_read<S: Alter>(conn: &mut Connection<S>, text: &str) -> Result<(), StoreFault>
    requires rest { conn.old.in_transaction ≡ false }
    ensures reads { OnlyReads (state S.Store conn.old) (state S.Store conn.new) }
    ensures mode { conn.new.in_transaction ≡ false }
    ensures understood { OnOk result (HasCleanDisk (state S.Store conn.new)
        → IsUnderstood (state S.Store conn.old).committed.schema text.now) }
    ensures cause { IfErr result (λ fault. HasCleanDisk (state S.Store conn.new)
        → IsSeen (λ database. IsOneStatement database.schema text.now → ⊥) (λ database. ⊥)
        (state S.Store conn.old) (state S.Store conn.new) fault) }
{
    let _settled = conn.is_autocommit();
    match conn.prepare(text) {
        Ok(_) => Ok(()),
        Err(error) => Err(fault_of(error)),
    }
}

// The fault for a text that isn't taken: the store below has failed, or the text isn't one statement with these tables.
fn fault_of(error: Error) -> StoreFault
    ensures { IsToldOf error result }
{
    match error {
        Error::SqliteFailure(ErrorCode::OutOfMemory) => StoreFault::Memory,
        Error::SqliteFailure(ErrorCode::SystemIoFailure) => StoreFault::Device,
        Error::SqliteFailure(ErrorCode::DatabaseCorrupt) => StoreFault::Device,
        Error::SqliteFailure(ErrorCode::DiskFull) => StoreFault::Device,
        Error::SqliteFailure(ErrorCode::Closed) => StoreFault::Device,
        _ => StoreFault::Shape,
    }
}

// Whether a version is the wanted one.
fn same(version: Option<u64>, wanted: u64) -> Result<(), StoreFault>
    ensures ok { OnOk result (version ≡ Some wanted) }
    ensures fault { IfErr result (λ fault. (fault ≡ Version) × (version ≢ Some wanted)) }
{
    match version {
        Some(number) if number == wanted => Ok(()),
        _ => Err(StoreFault::Version),
    }
}

// Whether the tables are of a version, by a text that asks for it.
fn is_version<S: Alter>(conn: &mut Connection<S>, text: &str, wanted: u64) -> Result<(), StoreFault>
    requires rest { conn.old.in_transaction ≡ false }
    requires asks { IsAskedBy of_version text.now }
    requires earlier { Reads bureau_1 text.now read.version (codes "version" ∷ []) 0 }
    ensures reads { OnlyReads (state S.Store conn.old) (state S.Store conn.new) }
    ensures mode { conn.new.in_transaction ≡ false }
    ensures is_open { OnOk result (HasCleanDisk (state S.Store conn.new)
        → IsTrue (state S.Store conn.new).is_open) }
    ensures version { OnOk result (HasCleanDisk (state S.Store conn.new)
        → TellsVersion (Some wanted) (state S.Store conn.old).committed) }
    ensures cause { IfErr result (λ fault. HasCleanDisk (state S.Store conn.new)
        → (IsTrue (state S.Store conn.old).is_open
        → IsUnderstood (state S.Store conn.old).committed.schema text.now)
        → IsSeen (λ database. ⊥) (IsOther wanted) (state S.Store conn.old) (state S.Store conn.new) fault) }
{
    match version(conn, text) {
        Ok(version) => same(version, wanted),
        Err(ReadFault::Memory) => Err(StoreFault::Memory),
        Err(ReadFault::Device) => Err(StoreFault::Device),
    }
}

// Whether each of these texts means something with the tables that the connection has.
#[tactic(auto, using(crate::proofs::OpenFacts::read_on, crate::proofs::OpenFacts::no_read, crate::proofs::OpenFacts::none_meant_yet, crate::proofs::OpenFacts::all_meant))]
fn can_read_all<S: Alter>(conn: &mut Connection<S>, texts: &[&str]) -> Result<(), StoreFault>
    requires rest { conn.old.in_transaction ≡ false }
    ensures reads { OnlyReads (state S.Store conn.old) (state S.Store conn.new) }
    ensures mode { conn.new.in_transaction ≡ false }
    ensures understood { OnOk result (HasCleanDisk (state S.Store conn.new)
        → IsTrue (state S.Store conn.new).is_open
        → AllByRecursion
        (λ text. IsUnderstood (state S.Store conn.old).committed.schema text.now) texts.now) }
    ensures cause { IfErr result (λ fault. HasCleanDisk (state S.Store conn.new)
        → IsSeen (LacksText texts.now) (λ database. ⊥)
        (state S.Store conn.old) (state S.Store conn.new) fault) }
{
    for text in texts {
        can_read(conn, text)?;
    }
    Ok(())
}

// Whether the connection has the tables of version 1, each with all its columns.
fn has_tables<S: Alter>(conn: &mut Connection<S>) -> Result<(), StoreFault>
    requires rest { conn.old.in_transaction ≡ false }
    ensures reads { OnlyReads (state S.Store conn.old) (state S.Store conn.new) }
    ensures mode { conn.new.in_transaction ≡ false }
    ensures tables { OnOk result (HasCleanDisk (state S.Store conn.new)
        → IsTrue (state S.Store conn.new).is_open
        → HasTables (state S.Store conn.old).committed.schema) }
    ensures cause { IfErr result (λ fault. HasCleanDisk (state S.Store conn.new)
        → IsSeen LacksTables (λ database. ⊥) (state S.Store conn.old) (state S.Store conn.new) fault) }
{
    can_read_all(conn, &columns_of_tables())
}

// Whether the table of the version is there, with this one.
fn has_version<S: Alter>(conn: &mut Connection<S>, wanted: u64) -> Result<(), StoreFault>
    requires { conn.old.in_transaction ≡ false }
    ensures reads { OnlyReads (state S.Store conn.old) (state S.Store conn.new) }
    ensures mode { conn.new.in_transaction ≡ false }
    ensures version { OnOk result (HasCleanDisk (state S.Store conn.new)
        → TellsVersion (Some wanted) (state S.Store conn.old).committed) }
    ensures cause { IfErr result (λ fault. HasCleanDisk (state S.Store conn.new)
        → IsSeen LacksVersion (IsOther wanted) (state S.Store conn.old) (state S.Store conn.new) fault) }
{
    let text = read::version();
    can_read(conn, text)?;
    is_version(conn, text, wanted)
}

/// Whether a connection is open and holds tables of a version, with which this text too means something.
pub(crate) fn holds<S: Alter>(
    conn: &mut Connection<S>,
    wanted: u64,
    text: &str,
) -> Result<(), StoreFault>
    requires { conn.old.in_transaction ≡ false }
    ensures reads { OnlyReads (state S.Store conn.old) (state S.Store conn.new) }
    ensures mode { conn.new.in_transaction ≡ false }
    ensures is_open { OnOk result (HasCleanDisk (state S.Store conn.new)
        → IsTrue (state S.Store conn.new).is_open) }
    ensures version { OnOk result (HasCleanDisk (state S.Store conn.new)
        → TellsVersion (Some wanted) (state S.Store conn.old).committed) }
    ensures tables { OnOk result (HasCleanDisk (state S.Store conn.new)
        → HasTables (state S.Store conn.old).committed.schema) }
    ensures understood { OnOk result (HasCleanDisk (state S.Store conn.new)
        → IsUnderstood (state S.Store conn.old).committed.schema text.now) }
    ensures cause { IfErr result (λ fault. HasCleanDisk (state S.Store conn.new)
        → IsSeen (LacksMore wanted text.now) (IsOther wanted)
        (state S.Store conn.old) (state S.Store conn.new) fault) }
{
    has_version(conn, wanted)?;
    has_tables(conn)?;
    can_read(conn, text)?;
    look(conn)
}

/// Looks whether a connection holds a store: the tables of version 2. The connection isn't in a transaction, and stays
/// as it was. [`SqlStore::over`](crate::SqlStore::over) is the store that was found.
///
/// # Errors
///
/// [`StoreFault::Shape`] if a table of a store or one of its columns is missing, [`StoreFault::Version`] if the tables
/// are of another version than 2; `Memory` if memory ran out, and `Device` if the device failed. A database that the
/// bureau made is refused only if memory ran out, the device failed or the connection was closed, or if a limit of
/// steps is set.
pub fn find_store<S: Alter>(conn: &mut Connection<S>) -> Result<(), StoreFault>
    requires rest { conn.old.in_transaction ≡ false }
    ensures is_open { OnOk result (HasCleanDisk (state S.Store conn.new)
        → IsTrue (state S.Store conn.new).is_open) }
    ensures version { OnOk result (HasCleanDisk (state S.Store conn.new)
        → HasVersion (Some 2) (state S.Store conn.old).committed) }
    ensures found { OnOk result (HasCleanDisk (state S.Store conn.new)
        → HasTables (state S.Store conn.old).committed.schema
        × HasConditions (state S.Store conn.old).committed.schema) }
    ensures other { OnOk result (HasCleanDisk (state S.Store conn.new)
        → IsOfVersion1 (state S.Store conn.old).committed → ⊥) }
    ensures cause { IfErr result (λ fault. HasCleanDisk (state S.Store conn.new)
        → IsNoStore (state S.Store conn.old) (state S.Store conn.new) fault) }
    ensures unopened { IfErr result (λ fault. HasCleanDisk (state S.Store conn.new)
        → conn.old.step_limit ≡ None → IsOurs (state S.Store conn.old).committed
        → IsOutOfReach (state S.Store conn.old) (state S.Store conn.new) fault) }
    ensures reads { OnlyReads (state S.Store conn.old) (state S.Store conn.new) }
    ensures mode { conn.new.in_transaction ≡ false }
    ensures rests { IsAtRest (state S.Store conn.new) }
{
    let found = holds(conn, 2, columns_of_conditions());
    let _settled = conn.is_autocommit();
    found
}
