//! The holds on the SYSMODs of a zone. They are found among all holds, once to read these costs no more than to join
//! this zone and those before it, since the last change, with the table of holds.
ghost use Rattle.std.specs.Prelude.{◌≡◌, IfOk, IfSome, IsTrue};
ghost use Rattle.bureau_store.specs.Caller.{IsProper};
ghost use Rattle.bureau_store.specs.Held.{held_in};
ghost use Rattle.bureau_store.specs.Store.{Reads};
ghost use Rattle.bureau_store.specs.Tables.{rows_of, zone_named};
ghost use Rattle.bureau_store.specs.declared.caller.Caller.TheVariants.{Client};
ghost use Rattle.catalogue.specs.View.{Tells};
ghost use Rattle.holddata.specs.HoldBook.{IsInKeyOrder};
ghost use Rattle.sqlite.specs.State.{HasCleanDisk};
ghost use Rattle.sql_tables.specs.Ours.{IsOurs};
ghost use Rattle.zone_lists.specs.ZoneList.{RowsAscend};
ghost use Rattle.bureau_sql.specs.SqlView.{shown, sql_view, tables_in};
ghost use Rattle.bureau_sql.specs.Spared.{spared};

use crate::SqlStore;
use crate::held::held_among;
use bureau_store::{Store, StoreFault};
use holddata::{Hold, Kind};
use mcs_reader::Id;
use sqlite_trees::store::Alter;
use supersede::Zone;
use zone_lists::ZoneRow;

impl<S: Alter> SqlStore<S> {
    // How many holds are published. They are counted once between two publications.
    fn hold_count(&mut self) -> Result<u64, StoreFault>
        ensures { Reads (sql_view S.Store) self.old self.new result }
    {
        self.check_open(StoreFault::Device)?;
        if let Some(count) = self.recent.hold_count() {
            return Ok(count);
        }
        let found = sql_reads::hold_count(&mut self.conn);
        self.recent.keep_hold_count(&found);
        self.answered(found)
    }

    // Whether it costs no more to read all holds than the joins did since the last change, with one of this zone.
    fn is_book_due(&mut self, client: &Id, zone: &Id) -> Result<bool, StoreFault>
        ensures { Reads (sql_view S.Store) self.old self.new result }
    {
        self.check_open(StoreFault::Device)?;
        let rows = self.recent.row_count(client, zone);
        if !self.recent.wants_book(rows) {
            return Ok(false);
        }
        let Some(holds) = unless_short(self.hold_count())? else {
            return Ok(false);
        };
        Ok(self.recent.is_book_worth(holds, rows))
    }

    // Reads all holds.
    fn read_holds(&mut self) -> Result<(), StoreFault>
        ensures { Reads (sql_view S.Store) self.old self.new result }
    {
        self.check_open(StoreFault::Device)?;
        let found = sql_reads::holds(self.alloc, &mut self.conn);
        let kept = self.recent.keep_book(found);
        self.answered(kept)
    }

    /// Reads all holds, if it is time before those of this zone are looked for. If memory is short for them, nothing is
    /// kept, and joins are counted anew.
    pub(crate) fn read_book(&mut self, client: &Id, zone: &Id) -> Result<(), StoreFault>
        ensures { Reads (sql_view S.Store) self.old self.new result }
    {
        if !self.is_book_due(client, zone)? {
            return Ok(());
        }
        unless_short(self.read_holds())?;
        Ok(())
    }

    // The holds of a kind on SYSMODs that these rows have as installed, if all holds are kept, a join costs no less, and
    // memory is at hand.
    fn held_on(&self, rows: Vec<ZoneRow>, kind: Kind) -> Option<Vec<Hold>>
        requires { RowsAscend rows.items }
        ensures holds { IfSome result (λ holds. HasCleanDisk (shown S.Store self.now)
            → IsTrue (shown S.Store self.now).is_open → IsOurs (shown S.Store self.now).committed
            → holds.items ≡ held_in (tables_in S.Store self.now).content rows.items kind) }
        ensures in_key_order { IfSome result (λ holds. IsInKeyOrder holds.items) }
    {
        if !self.recent.is_book_better(rows.len()) {
            return None;
        }
        let book = self.recent.holds()?;
        let zone = Zone::from_rows(rows);
        held_among(self.alloc, book, &zone, kind).ok()
    }

    /// The holds of a kind on SYSMODs that are installed in a zone, among all holds. It answers nothing if these aren't
    /// kept, if a join costs less, or if memory is short.
    pub(crate) fn held_by_book(
        &mut self,
        client: &Id,
        zone: &Id,
        kind: Kind,
    ) -> Result<Option<Vec<Hold>>, StoreFault>
        requires { IsProper (Client client.now) }
        ensures reads { Reads (sql_view S.Store) self.old self.new result }
        ensures holds { IfOk result (λ found. IfSome found (λ holds.
            Tells (sql_view S.Store) self.old self.new (λ tables. holds.items
            ≡ held_in tables.content (rows_of (zone_named zone.now (tables.zones client.now))) kind))) }
        ensures in_key_order { IfOk result (λ found. IfSome found (λ holds. IsInKeyOrder holds.items)) }
    {
        self.check_open(StoreFault::Device)?;
        if self.recent.holds().is_none() {
            return Ok(None);
        }
        let Some(Some(rows)) = unless_short(self.zone(client, zone))? else {
            return Ok(None);
        };
        Ok(self.held_on(rows, kind))
    }

    /// The same by a join of the zone with the table of holds. It is counted.
    pub(crate) fn held_by_join(
        &mut self,
        client: &Id,
        zone: &Id,
        kind: Kind,
    ) -> Result<Vec<Hold>, StoreFault>
        ensures reads { Reads (sql_view S.Store) self.old self.new result }
        ensures holds { IfOk result (λ holds. Tells (sql_view S.Store) self.old self.new
            (λ tables. holds.items
            ≡ held_in tables.content (rows_of (zone_named zone.now (tables.zones client.now))) kind)) }
        ensures in_key_order { IfOk result (λ holds. IsInKeyOrder holds.items) }
    {
        self.check_open(StoreFault::Device)?;
        let found = sql_reads::held_in(self.alloc, &mut self.conn, client, zone, kind);
        self.recent.count_join(client, zone);
        self.answered(found)
    }
}

// The answer of a read; nothing if memory ran out.
fn unless_short<A: Drop>(answer: Result<A, StoreFault>) -> Result<Option<A>, StoreFault>
    ensures { result ≡ spared answer }
{
    match answer {
        Ok(value) => Ok(Some(value)),
        Err(StoreFault::Memory) => Ok(None),
        Err(fault) => Err(fault),
    }
}
