//! The version of the tables.
ghost use Rattle.std.specs.Prelude.{◌≡◌, ◌⊎◌, ◌∷◌, [], codes, IfErr, IfOk, IsTrue, Some, false};
ghost use Rattle.sqlite.specs.Held.{state};
ghost use Rattle.sqlite.specs.State.{HasCleanDisk};
ghost use Rattle.sql_reads.specs.Version.{HasVersion, MeansNothing, Withholds, version_in};
ghost use Rattle.sql_texts.specs.Meaning.{Reads};
ghost use Rattle.sql_texts.specs.Reads as read;
ghost use Rattle.sql_texts.specs.Schema.{bureau, bureau_1};
ghost use Rattle.sql_reads.specs.declared.fault.ReadFault.TheVariants.{Device};
ghost use Rattle.sql_tables.specs.Earlier.{IsOfVersion1};
ghost use Rattle.sql_tables.specs.Ours.{IsOurs};
ghost use Rattle.sql_tables.specs.Reading.{HasFailed, OnlyReads};

use crate::ReadFault;
use crate::rows::rows_of;
use sql_tables::count_in;
use sqlite::{Alter, Connection, Row};

/// Reads the version of the tables, by a text that asks for it, or `None` if the answer isn't just one row with a
/// number. Tables of the bureau's own are of version 2; those of version 1 lack one table.
///
/// # Errors
///
/// Those of [`ReadFault`].
pub fn version<S: Alter>(conn: &mut Connection<S>, text: &str) -> Result<Option<u64>, ReadFault>
    requires rest { conn.old.in_transaction ≡ false }
    requires asks { Reads bureau text.now read.version (codes "version" ∷ []) 0 }
    requires earlier { Reads bureau_1 text.now read.version (codes "version" ∷ []) 0 }
    ensures mode { conn.new.in_transaction ≡ false }
    ensures reads { OnlyReads (state S.Store conn.old) (state S.Store conn.new) }
    ensures is_open { IfOk result (λ version. HasCleanDisk (state S.Store conn.new)
        → IsTrue (state S.Store conn.new).is_open) }
    ensures version { IfOk result (λ version. HasCleanDisk (state S.Store conn.new)
        → HasVersion version (state S.Store conn.old).committed) }
    ensures ours { IfOk result (λ version. HasCleanDisk (state S.Store conn.new)
        → IsOurs (state S.Store conn.old).committed → version ≡ Some 2) }
    ensures earlier { IfOk result (λ version. HasCleanDisk (state S.Store conn.new)
        → IsOfVersion1 (state S.Store conn.old).committed → version ≡ Some 1) }
    ensures cause { IfErr result (λ fault. HasCleanDisk (state S.Store conn.new) → fault ≡ Device
        → HasFailed (state S.Store conn.old) (state S.Store conn.new)
        ⊎ (MeansNothing text.now (state S.Store conn.old).committed
        ⊎ Withholds (state S.Store conn.old).step_limit text.now [] (state S.Store conn.old).committed)) }
{
    let rows = rows_of(conn, text, &[])?;
    Ok(told(rows.as_slice()))
}

// The number of the one row.
fn told(rows: &[Row]) -> Option<u64>
    ensures { result ≡ version_in rows.now }
{
    match rows {
        [row] => count_in(row),
        _ => None,
    }
}
