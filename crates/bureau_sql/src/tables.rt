//! All tables of a store in a database.
ghost use Rattle.std.specs.Prelude.{◌≤◌, IfErr};
ghost use Rattle.bureau_store.specs.Caller.{IsProper};
ghost use Rattle.bureau_store.specs.Effects.{IsAscending, effect_as, maker_of};
ghost use Rattle.bureau_store.specs.Store.{Makes, greatest_number, update};
ghost use Rattle.bureau_sql.specs.Failing.{FailsToChange};
ghost use Rattle.bureau_sql.specs.Outgrown.{HasNoRoom};
ghost use Rattle.bureau_sql.specs.SqlView.{sql_view};

use crate::{SqlStore, changes, fit};
use bureau_store::{Caller, Effect, Store, StoreFault};
use holddata::{Hold, Kind};
use mcs_reader::Id;
use sqlite_trees::store::Alter;
use zone_lists::{Pattern, ZoneRow};

impl<S: Alter> Store for SqlStore<S> {
    ghost use Rattle.bureau_sql.specs.Laws.{sql_holds_tables, sql_in_order, sql_lawful, sql_shows_content};
    ghost use Rattle.bureau_sql.specs.Failing.{FailsToChange};
    ghost use Rattle.bureau_sql.specs.Outgrown.{HasNoRoom};
    ghost use Rattle.bureau_sql.specs.SqlView.{sql_view};

    ghost tables_view = { sql_view S.Store };

    ghost outgrown = { HasNoRoom };

    ghost refuses = { FailsToChange S.Store };

    fn device_failed(&self) -> bool {
        self.failures > 0
    }

    fn caller_of(&mut self, token: &[u8]) -> Result<Option<Caller>, StoreFault> {
        self.check_open(StoreFault::Device)?;
        if let Some(caller) = self.recent.caller_of(token) {
            return Ok(Some(caller));
        }
        let found = sql_reads::caller_of(&mut self.conn, token);
        self.recent.keep_caller(self.alloc, token, &found);
        self.answered(found)
    }

    fn last(&mut self, caller: &Caller) -> Result<(u64, Vec<u8>), StoreFault> {
        self.check_open(StoreFault::Device)?;
        let found = sql_reads::last(self.alloc, &mut self.conn, caller);
        self.answered(found)
    }

    fn counts(&mut self) -> Result<(u64, u64), StoreFault> {
        self.check_open(StoreFault::Device)?;
        if let Some(counts) = self.recent.counts() {
            return Ok(counts);
        }
        let found = sql_reads::counts(&mut self.conn);
        self.recent.keep_counts(&found);
        self.answered(found)
    }

    fn zones(&mut self, client: &Id) -> Result<Vec<(Id, u64)>, StoreFault> {
        self.check_open(StoreFault::Device)?;
        if let Some(zones) = self.recent.zones_of(self.alloc, client) {
            return Ok(zones);
        }
        let found = sql_reads::zones(self.alloc, &mut self.conn, client);
        self.recent.keep_zones(self.alloc, client, &found);
        self.answered(found)
    }

    fn zone_count(&mut self, client: &Id) -> Result<u64, StoreFault> {
        self.check_open(StoreFault::Device)?;
        let found = sql_reads::zone_count(&mut self.conn, client);
        self.answered(found)
    }

    fn has_zone(&mut self, client: &Id, zone: &Id) -> Result<bool, StoreFault> {
        self.check_open(StoreFault::Device)?;
        let found = sql_reads::has_zone(&mut self.conn, client, zone);
        self.answered(found)
    }

    fn zone(&mut self, client: &Id, zone: &Id) -> Result<Option<Vec<ZoneRow>>, StoreFault> {
        self.check_open(StoreFault::Device)?;
        if let Some(rows) = self.recent.rows_of(self.alloc, client, zone) {
            return Ok(Some(rows));
        }
        let found = sql_reads::zone(self.alloc, &mut self.conn, client, zone);
        self.recent.keep_rows(self.alloc, client, zone, &found);
        self.answered(found)
    }

    fn received(&mut self, client: &Id) -> Result<Vec<Id>, StoreFault> {
        self.check_open(StoreFault::Device)?;
        let found = sql_reads::received(self.alloc, &mut self.conn, client);
        self.answered(found)
    }

    fn patterns(&mut self, client: &Id, zone: &Id) -> Result<Vec<Pattern>, StoreFault> {
        self.check_open(StoreFault::Device)?;
        let found = sql_reads::patterns(self.alloc, &mut self.conn, client, zone);
        self.answered(found)
    }

    fn held_in(&mut self, client: &Id, zone: &Id, kind: Kind) -> Result<Vec<Hold>, StoreFault> {
        self.read_book(client, zone)?;
        if let Some(holds) = self.held_by_book(client, zone, kind)? {
            return Ok(holds);
        }
        self.held_by_join(client, zone, kind)
    }

    // It forgets what was read before the change. How many holds there are stays, unless others are published.
    fn make(&mut self, number: u64, reply: &[u8], effect: &Effect<'_>) -> Result<(), StoreFault>
        requires maker { IsProper (maker_of effect.now) }
        requires number { number ≤ greatest_number }
        requires ascending { IsAscending effect.now }
        ensures makes { Makes (sql_view S.Store) HasNoRoom
            (update (maker_of effect.now) (effect_as effect.now) number reply.now)
            self.old self.new result }
        ensures cause { IfErr result (FailsToChange S.Store
            (update (maker_of effect.now) (effect_as effect.now) number reply.now)
            self.old self.new) }
    {
        self.check_open(StoreFault::Device)?;
        self.recent.forget_before(effect);
        // It does nothing. Its contract tells the proof that the types of the effect make it fit to be written.
        fit::effect(effect);
        let made = changes::make(self.alloc, &mut self.conn, number, reply, effect);
        self.made(made)
    }

    ghost tables_lawful = { sql_lawful _ };

    ghost shows_content = { sql_shows_content _ };

    ghost holds_tables = { sql_holds_tables (record {
      view = S.Store.view;
      faults = S.Store.faults;
      recovers = S.Store.recovers;
      is_shielded = S.Store.is_shielded;
      is_step = S.Store.is_step;
      blamed = S.Store.blamed;
      names = S.Store.names;
    }) };

    ghost tables_in_order = { sql_in_order (record {
      view = S.Store.view;
      faults = S.Store.faults;
      recovers = S.Store.recovers;
      is_shielded = S.Store.is_shielded;
      is_step = S.Store.is_step;
      blamed = S.Store.blamed;
      names = S.Store.names;
    }) };
}
