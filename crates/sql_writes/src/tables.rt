//! The tables of version 2, made one after the other in an empty database.
ghost use Rattle.std.specs.Prelude.{◌≡◌, [], length};
ghost use Rattle.sql_texts.specs.Schema.{indexes, tables};
ghost use Rattle.sql_writes.specs.Altering.{RefusesExcused, Turns};
ghost use Rattle.sql_writes.specs.Making.{AreFit, IsEmpty, IsMade, IsOpened};

use crate::insert;
use crate::run::run;
use bureau_store::CallerRow;
use sql_texts::{create as texts, write};
use sqlite::{Alter, Error, Transaction};

fn bureau_version<S: Alter>(tx: &mut Transaction<'_, S>) -> Result<(), Error>
    ensures same { tx.new.conn.ghost_name ≡ tx.old.conn.ghost_name }
    ensures made { Turns S.Store tx.old.conn.now tx.new.conn.now result IsEmpty (IsMade 1 0) }
    ensures excused { RefusesExcused S.Store tx.old.conn.now tx.new.conn.now result IsEmpty }
{
    run(tx, texts::bureau_version(), &[])
}

fn all_tables<S: Alter>(tx: &mut Transaction<'_, S>) -> Result<(), Error>
    ensures same { tx.new.conn.ghost_name ≡ tx.old.conn.ghost_name }
    ensures made { Turns S.Store tx.old.conn.now tx.new.conn.now result IsEmpty
        (IsMade (length tables) (length indexes)) }
    ensures excused { RefusesExcused S.Store tx.old.conn.now tx.new.conn.now result IsEmpty }
{
    bureau_version(tx)?;
    for text in texts::others() {
        run(tx, text, &[])?;
    }
    Ok(())
}

fn with_version<S: Alter>(tx: &mut Transaction<'_, S>) -> Result<(), Error>
    ensures same { tx.new.conn.ghost_name ≡ tx.old.conn.ghost_name }
    ensures made { Turns S.Store tx.old.conn.now tx.new.conn.now result IsEmpty (IsOpened []) }
    ensures excused { RefusesExcused S.Store tx.old.conn.now tx.new.conn.now result IsEmpty }
{
    all_tables(tx)?;
    run(tx, write::insert_version(), &[])
}

/// Makes the tables and the index of version 2 in an empty database, with their version and with these callers.
pub fn create<S: Alter>(tx: &mut Transaction<'_, S>, callers: &[CallerRow]) -> Result<(), Error>
    ensures same { tx.new.conn.ghost_name ≡ tx.old.conn.ghost_name }
    ensures made { Turns S.Store tx.old.conn.now tx.new.conn.now result IsEmpty (IsOpened callers.now) }
    ensures excused { AreFit callers.now
        → RefusesExcused S.Store tx.old.conn.now tx.new.conn.now result IsEmpty }
{
    with_version(tx)?;
    for caller in callers {
        insert::caller(tx, caller)?;
    }
    Ok(())
}
