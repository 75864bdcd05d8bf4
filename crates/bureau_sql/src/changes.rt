//! A change over a connection, in a transaction of its own that also keeps the number and the
//! reply.
ghost use Rattle.std.specs.Prelude.{◌≡◌, ◌≤◌, ℕ, false};
ghost use Rattle.sqlite.specs.Held.{state};
ghost use Rattle.bureau_store.specs.Caller.{IsProper};
ghost use Rattle.bureau_store.specs.Effects.{effect_as, maker_of};
ghost use Rattle.bureau_store.specs.Store.{greatest_number};
ghost use Rattle.sql_tables.specs.Fit.{IsFit};
ghost use Rattle.sql_writes.specs.Effects.{stored_by};
ghost use Rattle.sql_writes.specs.Room.{HasRoom, IsRoomy};
ghost use Rattle.bureau_sql.specs.Committed.{IsCommitted};
ghost use Rattle.bureau_sql.specs.Failing.{RefusesExcused};

use crate::commit::{begin, end};
use bureau_store::Effect;
use sqlite::{Connection, Error};
use sqlite_trees::store::Alter;
use std::alloc::Global;

/// Makes a change.
pub(crate) fn make<S: Alter>(
    alloc: Global,
    conn: &mut Connection<S>,
    number: u64,
    reply: &[u8],
    effect: &Effect<'_>,
) -> Result<(), Error>
    requires rest { conn.old.in_transaction ≡ false }
    requires maker { IsProper (maker_of effect.now) }
    requires number { number ≤ greatest_number }
    ensures mode { conn.new.in_transaction ≡ false }
    ensures committed { IsCommitted (state S.Store conn.old) (state S.Store conn.new) result
        (stored_by effect.now number reply.now) }
    ensures excused { (most : ℕ) → IsFit (effect_as effect.now)
        → HasRoom (effect_as effect.now) (record { number = number; reply = reply.now }) most
        → RefusesExcused (state S.Store conn.old) (state S.Store conn.new) result (IsRoomy most) }
{
    let mut tx = begin(conn);
    let written = sql_writes::write(alloc, &mut tx, number, reply, effect);
    end(tx, written)
}
