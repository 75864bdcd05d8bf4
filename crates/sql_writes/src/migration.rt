//! Making the tables of version 1 those of version 2, with the rows that they hold.
ghost use Rattle.std.specs.Prelude.{◌≡◌, []};
ghost use Rattle.sqlite.specs.Effect.{Database};
ghost use Rattle.sql_tables.specs.Earlier.{IsOfVersion1};
ghost use Rattle.sql_tables.specs.Ours.{version_rows};
ghost use Rattle.sql_tables.specs.Stored.{Stored};
ghost use Rattle.sql_writes.specs.Altering.{RefusesExcused, Turns};
ghost use Rattle.sql_writes.specs.Migrating.{HeldEarlier, HoldsAll, IsMigration, IsWithConditions, IsWithoutVersion};

use crate::run::run;
use sql_texts::{create, write};
use sqlite::{Alter, Error, Transaction};

fn with_sysmod_cond<S: Alter>(tx: &mut Transaction<'_, S>) -> Result<(), Error>
    ensures same { tx.new.conn.ghost_name ≡ tx.old.conn.ghost_name }
    ensures made { (stored : Stored)
        → Turns S.Store tx.old.conn.now tx.new.conn.now result
        (HeldEarlier stored) (HoldsAll (version_rows 1) stored) }
    ensures done { (before : Database)
        → Turns S.Store tx.old.conn.now tx.new.conn.now result
        (λ database. database ≡ before) (IsWithConditions before) }
    ensures excused { RefusesExcused S.Store tx.old.conn.now tx.new.conn.now result IsOfVersion1 }
{
    run(tx, create::sysmod_cond(), &[])
}

fn without_version<S: Alter>(tx: &mut Transaction<'_, S>) -> Result<(), Error>
    ensures same { tx.new.conn.ghost_name ≡ tx.old.conn.ghost_name }
    ensures made { (stored : Stored)
        → Turns S.Store tx.old.conn.now tx.new.conn.now result (HeldEarlier stored) (HoldsAll [] stored) }
    ensures done { (before : Database)
        → Turns S.Store tx.old.conn.now tx.new.conn.now result
        (λ database. database ≡ before) (IsWithoutVersion before) }
    ensures excused { RefusesExcused S.Store tx.old.conn.now tx.new.conn.now result IsOfVersion1 }
{
    with_sysmod_cond(tx)?;
    run(tx, write::delete_version(), &[])
}

/// Makes the tables of version 1 those of version 2: it adds the table of requisites under a condition, without a
/// row, and sets the version. All rows stay.
pub fn migrate<S: Alter>(tx: &mut Transaction<'_, S>) -> Result<(), Error>
    ensures same { tx.new.conn.ghost_name ≡ tx.old.conn.ghost_name }
    ensures made { (stored : Stored)
        → Turns S.Store tx.old.conn.now tx.new.conn.now result
        (HeldEarlier stored) (HoldsAll (version_rows 2) stored) }
    ensures done { (before : Database)
        → Turns S.Store tx.old.conn.now tx.new.conn.now result
        (λ database. database ≡ before) (IsMigration before) }
    ensures excused { RefusesExcused S.Store tx.old.conn.now tx.new.conn.now result IsOfVersion1 }
{
    without_version(tx)?;
    run(tx, write::insert_version(), &[])
}
