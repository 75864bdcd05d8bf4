//! The published content of a store in a database.
ghost use Rattle.std.specs.Prelude.{◌≡◌, IfOk, map};
ghost use Rattle.catalogue.specs.Seen.{seen_in};
ghost use Rattle.catalogue.specs.View.{MayAsk, Tells};
ghost use Rattle.catalogue.specs.declared.fault.SourceFault.TheVariants.{Device};
ghost use Rattle.sql_reads.specs.Runs.{IsRun};
ghost use Rattle.bureau_sql.specs.Laws.{sql_content_view};

use crate::SqlStore;
use catalogue::{Published, Seen, SourceFault, Sysmod};
use holddata::Hold;
use mcs_reader::Id;
use sqlite_trees::store::Alter;
use std::alloc::Global;

// Up to so many SYSMODs are read one after the other. They may be far apart, and a read of many goes through all
// rows between the first and the last.
const FEW: usize = 2048;

impl<S: Alter> SqlStore<S> {
    // The published SYSMODs of a list that ascends: each table is read once.
    fn run_seen(&mut self, alloc: Global, ids: &[Id]) -> Result<Vec<Seen>, SourceFault>
        requires run { IsRun ids.now }
        ensures asks { MayAsk (sql_content_view S.Store) Device self.old self.new result }
        ensures seen { IfOk result (λ found. Tells (sql_content_view S.Store) self.old self.new
            (λ content. found.items ≡ map (seen_in content) ids.now)) }
    {
        self.check_open(SourceFault::Device)?;
        let found = sql_reads::seen(alloc, &mut self.conn, ids);
        self.told(found)
    }

    // The same, one after the other.
    fn each_seen(&mut self, alloc: Global, ids: &[Id]) -> Result<Vec<Seen>, SourceFault>
        ensures asks { MayAsk (sql_content_view S.Store) Device self.old self.new result }
        ensures seen { IfOk result (λ found. Tells (sql_content_view S.Store) self.old self.new
            (λ content. found.items ≡ map (seen_in content) ids.now)) }
    {
        let mut found = Vec::with_capacity(alloc, ids.len())?;
        for id in ids {
            let sysmod = self.sysmod(id)?;
            let holds = self.holds_on(id)?;
            found.push(Seen { sysmod, holds })?;
        }
        Ok(found)
    }
}

impl<S: Alter> Published for SqlStore<S> {
    ghost use Rattle.bureau_sql.specs.Laws.{sql_content_in_order, sql_content_lawful, sql_content_view};

    ghost content_view = { sql_content_view S.Store };

    fn ids(&mut self) -> Result<Vec<Id>, SourceFault> {
        self.check_open(SourceFault::Device)?;
        let found = sql_reads::ids(self.alloc, &mut self.conn);
        self.told(found)
    }

    fn sysmod(&mut self, id: &Id) -> Result<Option<Sysmod>, SourceFault> {
        self.check_open(SourceFault::Device)?;
        let found = sql_reads::sysmod(self.alloc, &mut self.conn, id);
        self.told(found)
    }

    fn superseders(&mut self, id: &Id) -> Result<Vec<Id>, SourceFault> {
        self.check_open(SourceFault::Device)?;
        let found = sql_reads::superseders(self.alloc, &mut self.conn, id);
        self.told(found)
    }

    fn holds_on(&mut self, id: &Id) -> Result<Vec<Hold>, SourceFault> {
        self.check_open(SourceFault::Device)?;
        let found = sql_reads::holds_on(self.alloc, &mut self.conn, id);
        self.told(found)
    }

    fn seen(&mut self, alloc: Global, ids: &[Id]) -> Result<Vec<Seen>, SourceFault> {
        if ids.len() > FEW && sql_reads::is_run(ids) {
            self.run_seen(alloc, ids)
        } else {
            self.each_seen(alloc, ids)
        }
    }

    ghost lawful = { sql_content_lawful _ };

    ghost in_order = { sql_content_in_order (record {
      view = S.Store.view;
      faults = S.Store.faults;
      recovers = S.Store.recovers;
      is_shielded = S.Store.is_shielded;
      is_step = S.Store.is_step;
      blamed = S.Store.blamed;
      names = S.Store.names;
    }) };
}
