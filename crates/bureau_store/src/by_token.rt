//! The callers by their tokens.
ghost use Rattle.std.specs.Prelude.{◌≡◌, List, ◌∷◌, IfOk, OnOk};
ghost use Rattle.bureau_store.specs.Caller.{caller_named};
ghost use Rattle.bureau_store.specs.Kept.{KnowsTokens};
ghost use Rattle.bureau_store.specs.declared.caller.CallerRow.{CallerRow};

use crate::callers_file::is_publisher;
use crate::{Caller, CallerRow};
use faults::NoMemory;
use mcs_reader::Id;
use std::alloc::Global;
use std::collections::BTreeMap;

/// Copies the rows of callers.
pub(crate) fn copy_rows(alloc: Global, rows: &[CallerRow]) -> Result<Vec<CallerRow>, NoMemory>
    ensures { IfOk result (λ copy. copy.items ≡ rows.now) }
{
    let mut copy = Vec::with_capacity(alloc, rows.len())?;
    for row in rows {
        copy.push(CallerRow {
            name: row.name,
            token: row.token.copy()?,
        })?;
    }
    Ok(copy)
}

/// The callers by their tokens.
pub(crate) fn callers_by_token(
    alloc: Global,
    rows: &[CallerRow],
) -> Result<BTreeMap<Vec<u8>, Caller>, NoMemory>
    ensures { IfOk result (λ by_token. KnowsTokens (λ text. text.items) by_token.entries rows.now) }
{
    let mut by_token = BTreeMap::new(alloc);
    let mut left = rows.len();
    while left > 0 {
        left -= 1;
        put_token(&mut by_token, &rows[left])?;
    }
    Ok(by_token)
}

// Puts a caller in place of one with the same token.
fn put_token(by_token: &mut BTreeMap<Vec<u8>, Caller>, row: &CallerRow) -> Result<(), NoMemory>
    ensures { OnOk result ((rows : List CallerRow)
        → KnowsTokens (λ text. text.items) by_token.old.entries rows
        → KnowsTokens (λ text. text.items) by_token.new.entries (row.now ∷ rows)) }
{
    let token = row.token.copy()?;
    by_token.insert(token.into_vec(), caller_named(&row.name))?;
    Ok(())
}

// The caller of a name.
fn caller_named(name: &Id) -> Caller
    ensures { result ≡ caller_named name.now }
{
    if is_publisher(name) {
        Caller::Publisher
    } else {
        Caller::Client(*name)
    }
}
