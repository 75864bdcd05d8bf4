//! Giving a store the callers of a callers file.
ghost use Rattle.std.specs.Prelude.{◌≡◌, IfOk, false, map};
ghost use Rattle.std.specs.List.Sorted.{IsPermutation};
ghost use Rattle.bureau_store.specs.SetCallers.{ChangesTo, SetsCallers, names_that_change, with_callers as tables_with};
ghost use Rattle.bureau_store.specs.Store.{Reads};
ghost use Rattle.bureau_store.specs.Tables.{NamesAscend};
ghost use Rattle.catalogue.specs.View.{Tells};
ghost use Rattle.sqlite.specs.Held.{state};
ghost use Rattle.sql_tables.specs.Changes.{with_callers};
ghost use Rattle.bureau_sql.specs.Committed.{IsCommitted};
ghost use Rattle.bureau_sql.specs.SqlView.{IsAtRest, shown, sql_view};

use crate::commit::{begin, end};
use crate::{SqlStore, fit};
use bureau_store::{CallerCounts, CallerRow, StoreFault, callers_that_change};
use mcs_reader::Id;
use sqlite::{Connection, Error};
use sqlite_trees::store::Alter;

// Deletes all that the callers of these names have, and makes these the callers, in one transaction.
fn replace<S: Alter>(
    conn: &mut Connection<S>,
    names: &[Id],
    callers: &[CallerRow],
) -> Result<(), Error>
    requires rest { conn.old.in_transaction ≡ false }
    ensures mode { conn.new.in_transaction ≡ false }
    ensures committed { IsCommitted (state S.Store conn.old) (state S.Store conn.new) result
        (with_callers names.now callers.now) }
{
    let mut tx = begin(conn);
    let written = sql_writes::set_callers(&mut tx, names, callers);
    end(tx, written)
}

impl<S: Alter> SqlStore<S> {
    /// Reads the callers, ascending by name.
    ///
    /// # Errors
    ///
    /// `Memory` if memory ran out, `Device` if the device failed, now or before.
    pub fn callers(&mut self) -> Result<Vec<CallerRow>, StoreFault>
        ensures reads { Reads (sql_view S.Store) self.old self.new result }
        ensures callers { IfOk result (λ callers. Tells (sql_view S.Store) self.old self.new
            (λ tables. IsPermutation tables.callers callers.items)) }
        ensures ascend { IfOk result (λ callers. NamesAscend (map (λ row. row.name) callers.items)) }
        ensures rests { IsAtRest (shown S.Store self.new) }
    {
        self.check_open(StoreFault::Device)?;
        let found = sql_reads::all_callers(self.alloc, &mut self.conn);
        self.answered(found)
    }

    // Makes these the callers, and forgets what was read before. The callers before are given, with the names of all
    // that come or go.
    fn put_callers(
        &mut self,
        before: &[CallerRow],
        names: &[Id],
        callers: &[CallerRow],
    ) -> Result<(), StoreFault>
        requires ascend { NamesAscend (map (λ row. row.name) before.now) }
        requires names { names.now ≡ names_that_change before.now callers.now }
        ensures { ChangesTo (sql_view S.Store) (λ this. IsPermutation this.callers before.now)
            (tables_with callers.now) self.old self.new result }
    {
        self.check_open(StoreFault::Device)?;
        self.recent.forget();
        // It does nothing. Its contract tells the proof that the types of the callers make them fit to be written.
        fit::callers(callers);
        let made = replace(&mut self.conn, names, callers);
        self.made(made)
    }

    /// Gives the store these callers, and no others: those of a callers file, by [`bureau_store::callers`]. A caller
    /// that was there before keeps all and gets this token. A new one begins with nothing, and one that is gone leaves
    /// nothing. The answer counts those that came and went. All is done in one transaction: a stop leaves the tables as
    /// they were, or those with these callers.
    ///
    /// # Errors
    ///
    /// `Memory` or `Size` if memory or room ran out; `Device` if the device failed, now or before, or if two of the
    /// callers have one name or one token. The tables are as they were.
    pub fn set_callers(&mut self, callers: &[CallerRow]) -> Result<CallerCounts, StoreFault>
        ensures { SetsCallers (sql_view S.Store) callers.now self.old self.new result }
    {
        let before = self.callers()?;
        let (names, counts) = callers_that_change(self.alloc, before.as_slice(), callers)?;
        self.put_callers(before.as_slice(), names.as_slice(), callers)?;
        Ok(counts)
    }
}
