//! The table `hold_row`: the holds.
ghost use Rattle.std.specs.Prelude.{◌≡◌, false, IfOk};
ghost use Rattle.sqlite.specs.Held.{state};
ghost use Rattle.catalogue.specs.Content.{holds_on};
ghost use Rattle.holddata.specs.HoldBook.{IsInKeyOrder};
ghost use Rattle.sql_tables.specs.Reading.{Finds};
ghost use Rattle.sql_tables.specs.Stored.{tables_of};
ghost use Rattle.sql_reads.specs.Columns.{ShowsAll, indices_of};
ghost use Rattle.sql_texts.specs.Schema as schema;

use crate::ReadFault;
use crate::all_columns::AllColumns;
use crate::entry::{Entry, Ordered, entries};
use crate::scan::Scanned;
use crate::selection::{Selection, select};
use holddata::{Hold, key_cmp};
use mcs_reader::Id;
use sql_rows::{All, Holds};
use sql_tables::{NoMemory, hold_in};
use sqlite::{Alter, Connection, Row};
use std::alloc::Global;

impl Ordered for Hold {
    ghost use Rattle.holddata.specs.HoldKey.{key_cmp};
    ghost use Rattle.holddata.proofs.KeyFacts.{keys_total};
    ghost use Rattle.std.proofs.lemmas.Cmp.{on_total};
    ghost use Rattle.sql_reads.specs.Orders.{ascends_by};

    ghost cmp = { λ hold next. key_cmp hold.key next.key };

    ghost ascend = { IsInKeyOrder };

    fn is_below(&self, next: &Hold) -> bool {
        key_cmp(&self.key, &next.key).is_lt()
    }

    ghost total = { on_total (λ hold. hold.key) keys_total };

    ghost ascends = { ascends_by key_cmp (λ hold. hold.key) };
}

impl Entry for Hold {
    ghost use Rattle.sql_tables.specs.Rows.{hold_found};

    ghost found = { hold_found };

    fn in_row(alloc: Global, row: &Row) -> Result<Option<Hold>, NoMemory> {
        hold_in(alloc, row)
    }
}

impl Selection<Id> for Holds {
    ghost use Rattle.std.specs.Prelude.{◌∷◌, []};
    ghost use Rattle.sql_texts.specs.Schema.{hold_columns};

    ghost shown = { indices_of schema.hold_row };

    ghost names = { hold_columns };

    ghost order = { 1 ∷ 2 ∷ 3 ∷ [] };

    #[tactic(auto, unfolding(sqlite::specs::Listing::understood, sqlite_tied::specs::Compute::everything))]
    fn text() -> &'static str {
        "SELECT sysmod, kind, reason, fmid, class, dated, resolver, categories FROM hold_row \
         WHERE sysmod = ?1 ORDER BY sysmod, kind, reason"
    }
}

// All holds, in the order of their keys.
impl Selection<All> for Holds {
    ghost use Rattle.std.specs.Prelude.{◌∷◌, []};
    ghost use Rattle.sql_texts.specs.Schema.{hold_columns};

    ghost shown = { indices_of schema.hold_row };

    ghost names = { hold_columns };

    ghost order = { 1 ∷ 2 ∷ 3 ∷ [] };

    #[tactic(auto, unfolding(sqlite::specs::Listing::understood, sqlite_tied::specs::Compute::everything))]
    fn text() -> &'static str {
        "SELECT sysmod, kind, reason, fmid, class, dated, resolver, categories FROM hold_row \
         ORDER BY sysmod, kind, reason"
    }
}

impl Scanned for Holds {
    ghost use Rattle.std.specs.Prelude.{◌∷◌, [], refl};
    ghost use Rattle.sql_texts.specs.Schema.{hold_columns};

    ghost scan_shown = { indices_of schema.hold_row };

    ghost scan_names = { hold_columns };

    ghost scan_order = { 1 ∷ 2 ∷ 3 ∷ [] };

    ghost at = { 0 };

    #[tactic(auto, unfolding(sqlite::specs::Listing::understood, sqlite_tied::specs::Compute::everything))]
    fn scan_text() -> &'static str {
        "SELECT sysmod, kind, reason, fmid, class, dated, resolver, categories FROM hold_row \
         WHERE sysmod >= ?1 AND sysmod <= ?2 ORDER BY sysmod, kind, reason"
    }

    fn place() -> usize {
        0
    }

    ghost placed = { λ row. refl };
}

/// Reads the holds on a SYSMOD, in the order of their keys.
///
/// # Errors
///
/// Those of [`ReadFault`].
pub fn holds_on<S: Alter>(
    alloc: Global,
    conn: &mut Connection<S>,
    id: &Id,
) -> Result<Vec<Hold>, ReadFault>
    requires rest { conn.old.in_transaction ≡ false }
    ensures mode { conn.new.in_transaction ≡ false }
    ensures finds { Finds (state S.Store conn.old) (state S.Store conn.new) result
        (λ stored holds. holds.items ≡ holds_on (tables_of stored).content id.now) }
    ensures in_key_order { IfOk result (λ holds. IsInKeyOrder holds.items) }
{
    let rows = select::<Id, Holds, S>(conn, id)?;
    entries(alloc, rows.as_slice())
}

/// Reads all holds, in the order of their keys.
///
/// # Errors
///
/// Those of [`ReadFault`].
pub fn holds<S: Alter>(alloc: Global, conn: &mut Connection<S>) -> Result<Vec<Hold>, ReadFault>
    requires rest { conn.old.in_transaction ≡ false }
    ensures mode { conn.new.in_transaction ≡ false }
    ensures finds { Finds (state S.Store conn.old) (state S.Store conn.new) result
        (λ stored holds. holds.items ≡ (tables_of stored).content.holds) }
    ensures in_key_order { IfOk result (λ holds. IsInKeyOrder holds.items) }
{
    let rows = select::<All, Holds, S>(conn, &All)?;
    entries(alloc, rows.as_slice())
}

impl AllColumns for Holds {
    #[tactic(auto, unfolding(sqlite::specs::Listing::understood, sqlite_tied::specs::Compute::everything))]
    fn all_columns() -> &'static str
        ensures here { ShowsAll schema.bureau schema.hold_row result.now }
        ensures version_1 { ShowsAll schema.bureau_1 schema.hold_row result.now }
    {
        "SELECT sysmod, kind, reason, fmid, class, dated, resolver, categories FROM hold_row"
    }
}
