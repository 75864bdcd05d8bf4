//! The head of a client's zone, which says that the zone is there.
ghost use Rattle.std.specs.Prelude.{◌≡◌};
ghost use Rattle.sql_tables.specs.Changes.{with_head};
ghost use Rattle.sql_writes.specs.Altering.{Alters, TakesRoom};

use crate::{delete, insert};
use mcs_reader::Id;
use sql_rows::{Heads, Zone};
use sqlite::{Alter, Error, Transaction};
use std::alloc::Global;

/// Gives a client's zone its head. A zone that wasn't there gets no patterns.
pub(crate) fn keep_head<S: Alter>(
    alloc: Global,
    tx: &mut Transaction<'_, S>,
    client: &Id,
    zone: &Id,
) -> Result<(), Error>
    ensures same { tx.new.conn.ghost_name ≡ tx.old.conn.ghost_name }
    ensures changes { Alters S.Store tx.old.conn.now tx.new.conn.now result
        (λ stored. record stored { heads = with_head client.now zone.now stored.heads }) }
    ensures takes { TakesRoom S.Store tx.old.conn.now tx.new.conn.now result 1 (λ stored. Unit {0}) }
{
    let key = Zone {
        client: *client,
        zone: *zone,
    };
    if delete::has_rows_of::<Zone, Heads, S>(tx, &key)? {
        return Ok(());
    }
    insert::joined::<Zone, Heads, S>(alloc, tx, &key, &[])
}
