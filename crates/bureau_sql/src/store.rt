//! The store in a database.
ghost use Rattle.std.specs.Prelude.{◌≡◌, ◌≢◌, ◌≤◌, ◌<◌, ◌⊎◌, IfErr, OnErr, OnOk, IsTrue, true, false};
ghost use Rattle.catalogue.specs.View.{HasFailed};
ghost use Rattle.catalogue.specs.declared.fault.SourceFault.TheVariants.{Device, Memory};
ghost use Rattle.bureau_store.specs.Store.{IsOfCall, IsOfRead};
ghost use Rattle.bureau_store.specs.declared.fault.StoreFault.TheVariants.{Device as StoreDevice, Memory as StoreMemory, Size as StoreSize};
ghost use Rattle.sqlite.specs.Held.{state};
ghost use Rattle.sqlite.specs.State.{HasCleanDisk, store_error};
ghost use Rattle.sqlite_trees.specs.declared.error.StoreError.TheVariants.{OutOfMemory};
ghost use Rattle.sql_tables.specs.Ours.{IsOurs, held_by};
ghost use Rattle.sql_tables.specs.Reading.{HasFailed as HasFailedSince, OnlyReads};
ghost use Rattle.sql_tables.specs.Stored.{tables_of};
ghost use Rattle.bureau_sql.specs.SqlView.{IsAtRest, IsOurStore, shown, sql_view};
ghost use Rattle.bureau_sql.specs.Told.{IsOutOfRoom, IsRefusedAs, IsRefusedFor, IsTold};

use crate::probe::look;
use crate::recent::Recent;
use bureau_store::StoreFault;
use catalogue::SourceFault;
use failure_count::count_failure;
use sql_reads::ReadFault;
use sqlite::{Connection, Error, ErrorCode};
use sqlite_trees::store::Alter;
use std::alloc::Global;
use std::marker::Model;

/// All that the bureau keeps, in a database. A contract sees the connection, which is at rest, and the number of its
/// failures.
///
/// Until the next change the store keeps whose token it was, the zones of a client, and the rows of a zone, as it read
/// them: those that were used last, as many as take 64 MiB. It answers these without a query. Once it has looked for
/// the holds of many SYSMODs it keeps all holds too, if they are no more than 40,000 with no more than 8 MiB of
/// categories.
#[derive(Drop)]
pub struct SqlStore<S: Alter> {
    pub(crate) alloc: Global,
    pub(crate) conn: Connection<S>,
    pub(crate) failures: u64,
    pub(crate) unseen: bool,
    pub(crate) recent: Recent,
}

impl<S: Alter> Model for SqlStore<S> {
    ghost use Rattle.std.specs.Prelude.{◌≡◌, false};
    ghost use Rattle.bureau_sql.specs.Recent.{IsRecent};
    ghost use Rattle.bureau_sql.specs.SqlState.{SqlState, sql_code};
    ghost use Rattle.sqlite.specs.Held.{state};

    ghost Value = { SqlState S };

    ghost coded = { sql_code S.code };

    ghost view = { λ store. record { conn = store.conn; failures = store.failures; unseen = store.unseen } };

    ghost invariant = { λ store. (store.conn.in_transaction ≡ false) × IsRecent (state S.Store store.conn) store.recent };
}

impl<S: Alter> SqlStore<S> {
    /// The store in the database of a connection, if one was made, found or migrated there before. The call looks at
    /// nothing, and no failure is counted yet. The connection isn't in a transaction.
    pub fn over(alloc: Global, conn: Connection<S>) -> SqlStore<S>
        requires rest { conn.in_transaction ≡ false }
        ensures same { (result.conn ≡ conn) × (result.failures ≡ 0) }
        ensures seen { result.unseen ≡ false }
        ensures ours { IsTrue (state S.Store conn).is_open → IsOurs (state S.Store conn).committed
            → IsOurStore S.Store result }
        ensures tables { (sql_view S.Store).stands result
            (tables_of (held_by (state S.Store conn).committed)) }
        ensures rests { IsAtRest (shown S.Store result) }
    {
        SqlStore {
            alloc,
            conn,
            failures: 0,
            unseen: false,
            recent: Recent::nothing(),
        }
    }

    /// Returns the connection, with the tables as they are.
    pub fn into_connection(self) -> Connection<S>
        ensures { result ≡ self.conn }
    {
        let SqlStore {
            alloc: _,
            conn,
            failures: _,
            unseen: _,
            recent: _,
        } = self;
        conn
    }

    // Counts a failure of what lies below.
    pub(crate) fn fail(&mut self)
        ensures same { (self.new.conn ≡ self.old.conn) × (self.new.unseen ≡ self.old.unseen) }
        ensures failed { HasFailed (sql_view S.Store) self.old self.new }
        ensures rises { self.old.failures ≤ self.new.failures }
        ensures closed { 0 < self.new.failures }
    {
        count_failure(&mut self.failures);
    }

    // Closes a store whose connection was not seen to be open, for this fault of the look.
    fn close(&mut self, fault: StoreFault)
        ensures same { self.new.conn ≡ self.old.conn }
        ensures failed { HasFailed (sql_view S.Store) self.old self.new }
        ensures rises { self.old.failures ≤ self.new.failures }
        ensures unseen { fault ≢ StoreDevice → self.new.unseen ≡ true }
    {
        if !matches!(fault, StoreFault::Device) {
            self.unseen = true;
        }
        self.fail();
    }
}

impl<S: Alter> SqlStore<S> {
    // Refuses a call with this fault if a failure has closed the store, and counts that as a failure too.
    pub(crate) fn check_open<F: Copy>(&mut self, closed: F) -> Result<(), F>
        ensures closed { IfErr result (λ fault. (fault ≡ closed) × (self.new.conn ≡ self.old.conn)
            × (self.old.failures ≤ self.new.failures)
            × (0 < self.new.failures) × HasFailed (sql_view S.Store) self.old self.new) }
        ensures open { OnOk result ((self.new ≡ self.old) × (self.old.failures ≡ 0)) }
        ensures was_closed { OnErr result (0 < self.old.failures) }
    {
        if self.failures == 0 {
            return Ok(());
        }
        self.fail();
        Err(closed)
    }
}

impl<S: Alter> SqlStore<S> {
    // Looks whether the connection is open after it refused a call. A store whose connection is not seen to be open
    // closes.
    #[tactic(auto, using(crate::proofs::FailingFacts::seen_to_fail))]
    fn is_seen(&mut self) -> bool
        ensures reads { OnlyReads (shown S.Store self.old) (shown S.Store self.new) }
        ensures rises { self.old.failures ≤ self.new.failures }
        ensures open { result ≡ true → (self.new.failures ≡ self.old.failures)
            × (HasCleanDisk (shown S.Store self.new) → IsTrue (shown S.Store self.new).is_open) }
        ensures failed { result ≡ false → HasFailed (sql_view S.Store) self.old self.new }
        ensures cause { result ≡ false → HasCleanDisk (shown S.Store self.new)
            → HasFailedSince (shown S.Store self.old) (shown S.Store self.new) ⊎ IsTrue self.new.unseen }
    {
        match look(&mut self.conn) {
            Ok(()) => true,
            Err(fault) => {
                self.close(fault);
                false
            }
        }
    }

    // The fault of a refused read. If memory ran out, the connection may have been closed, so it is looked at.
    fn refused(&mut self, fault: ReadFault) -> SourceFault
        ensures reads { OnlyReads (shown S.Store self.old) (shown S.Store self.new) }
        ensures rises { self.old.failures ≤ self.new.failures }
        ensures refused { IsRefusedAs S.Store Device self.old self.new result }
    {
        if matches!(fault, ReadFault::Device) {
            self.fail();
            return SourceFault::Device;
        }
        if self.is_seen() {
            SourceFault::Memory
        } else {
            SourceFault::Device
        }
    }

    // The answer of a read, by what the connection found.
    pub(crate) fn told<A>(&mut self, found: Result<A, ReadFault>) -> Result<A, SourceFault>
        ensures { IsTold S.Store Device self.old self.new found result }
    {
        match found {
            Ok(answer) => Ok(answer),
            Err(fault) => Err(self.refused(fault)),
        }
    }

    // The same, for all tables.
    pub(crate) fn answered<A>(&mut self, found: Result<A, ReadFault>) -> Result<A, StoreFault>
        ensures told { IsTold S.Store StoreDevice self.old self.new found result }
        ensures refusal { IfErr result IsOfRead }
    {
        match found {
            Ok(answer) => Ok(answer),
            Err(fault) => match self.refused(fault) {
                SourceFault::Memory => Err(StoreFault::Memory),
                SourceFault::Device => Err(StoreFault::Device),
            },
        }
    }
}

impl<S: Alter> SqlStore<S> {
    // The fault of a refused change. Only of an open connection it says that memory or room ran out.
    pub(crate) fn refused_change(&mut self, error: Error) -> StoreFault
        ensures reads { OnlyReads (shown S.Store self.old) (shown S.Store self.new) }
        ensures rises { self.old.failures ≤ self.new.failures }
        ensures refused { IsRefusedAs S.Store StoreDevice self.old self.new result }
        ensures call { IsOfCall result }
        ensures cause { result ≢ StoreMemory → HasCleanDisk (shown S.Store self.new)
            → (error ≢ store_error OutOfMemory)
            ⊎ (HasFailedSince (shown S.Store self.old) (shown S.Store self.new)
            ⊎ ((result ≡ StoreDevice) × IsTrue self.new.unseen)) }
    {
        let fault = refusal_of(error);
        if matches!(fault, StoreFault::Device) {
            self.fail();
            return StoreFault::Device;
        }
        let seen = self.is_seen();
        if seen { fault } else { StoreFault::Device }
    }

    // The answer of a change, by that of the connection.
    pub(crate) fn made(&mut self, made: Result<(), Error>) -> Result<(), StoreFault>
        ensures told { IsTold S.Store StoreDevice self.old self.new made result }
        ensures refusal { IfErr result IsOfCall }
        ensures rests { IsAtRest (shown S.Store self.new) }
        ensures cause { IfErr result (λ fault. fault ≢ StoreMemory → HasCleanDisk (shown S.Store self.new)
            → IsRefusedFor S.Store made self.old self.new fault) }
    {
        match made {
            Ok(()) => Ok(()),
            Err(error) => Err(self.refused_change(error)),
        }
    }
}

// The fault for an error of the database: want of memory, or of room. All else is a failure.
pub(crate) fn refusal_of(error: Error) -> StoreFault
    ensures call { IsOfCall result }
    ensures memory { error ≡ store_error OutOfMemory → result ≡ StoreMemory }
    ensures room { IsOutOfRoom error → result ≡ StoreSize }
    ensures size { result ≡ StoreSize → IsOutOfRoom error }
{
    match error {
        Error::SqliteFailure(ErrorCode::OutOfMemory) => StoreFault::Memory,
        Error::SqliteFailure(ErrorCode::TooBig | ErrorCode::DiskFull) => StoreFault::Size,
        _ => StoreFault::Device,
    }
}
