//! The callers that come with a callers file, and those that are gone.
ghost use Rattle.std.specs.Prelude.{◌≡◌, List, ◌∷◌, false, map, filter, not, is_some, IfOk, OnOk};
ghost use Rattle.std.specs.BTreeMap.{get};
ghost use Rattle.std.specs.Cmp.Lexicographic.{slice_cmp};
ghost use Rattle.std.specs.List.{count_by};
ghost use Rattle.std.specs.Option.{option_map, unwrap_or};
ghost use Rattle.std.specs.Ordering.{nat_cmp};
ghost use Rattle.std.specs.Str.{bytes_eq};
ghost use Rattle.bureau_store.specs.Kept.{KnowsNames};
ghost use Rattle.bureau_store.specs.SetCallers.{counts_of, names_that_change};

use crate::{CallerRow, Token};
use faults::NoMemory;
use mcs_reader::Id;
use std::alloc::Global;
use std::collections::BTreeMap;

/// The difference between a store's callers and those before.
#[derive(Clone, Copy, Debug, PartialEq, Eq)]
pub struct CallerCounts {
    /// The number of callers.
    pub callers: u64,
    /// The number of them that are new.
    pub added: u64,
    /// The number of earlier callers that are gone.
    pub removed: u64,
    /// The number of callers that stay and have another token.
    pub tokens: u64,
}

/// Returns the names of all callers that come or go if these are the callers before and after: first those that
/// come, and then those that are gone. It also counts them.
///
/// # Errors
///
/// Memory ran out.
pub fn callers_that_change(
    alloc: Global,
    old: &[CallerRow],
    new: &[CallerRow],
) -> Result<(Vec<Id>, CallerCounts), NoMemory>
    ensures names { IfOk result (λ both. both.0.items ≡ names_that_change old.now new.now) }
    ensures counts { IfOk result (λ both. both.1 ≡ counts_of old.now new.now) }
{
    let before = tokens_by_name(alloc, old)?;
    let after = tokens_by_name(alloc, new)?;
    let mut names = names_beside(alloc, new, &before)?;
    let gone = names_beside(alloc, old, &after)?;
    let counts = CallerCounts {
        callers: new.len() as u64,
        added: names.len() as u64,
        removed: gone.len() as u64,
        tokens: new_tokens(new, &before) as u64,
    };
    names.extend_from_slice(gone.as_slice())?;
    Ok((names, counts))
}

// The callers' tokens by their names.
fn tokens_by_name(alloc: Global, rows: &[CallerRow]) -> Result<BTreeMap<Id, Token>, NoMemory>
    ensures { IfOk result (λ by_name. KnowsNames by_name.entries rows.now) }
{
    let mut by_name = BTreeMap::new(alloc);
    let mut left = rows.len();
    while left > 0 {
        left -= 1;
        put_name(&mut by_name, &rows[left])?;
    }
    Ok(by_name)
}

// Puts a caller in place of one with the same name.
fn put_name(by_name: &mut BTreeMap<Id, Token>, row: &CallerRow) -> Result<(), NoMemory>
    ensures { OnOk result ((rows : List CallerRow)
        → KnowsNames by_name.old.entries rows → KnowsNames by_name.new.entries (row.now ∷ rows)) }
{
    let token = row.token.copy()?;
    by_name.insert(row.name, token)?;
    Ok(())
}

// The names of those rows that no caller of a map has.
fn names_beside(
    alloc: Global,
    rows: &[CallerRow],
    by_name: &BTreeMap<Id, Token>,
) -> Result<Vec<Id>, NoMemory>
    ensures { IfOk result (λ names. names.items ≡ map (λ row. row.name)
        (filter (λ row. not (is_some (get (slice_cmp nat_cmp) by_name.now row.name))) rows.now)) }
{
    rows.iter()
        .filter(|row| !by_name.contains_key(&row.name))
        .map(|row| row.name)
        .collect(alloc)
}

// The number of rows that have another token than the caller of that name in a map.
fn new_tokens(rows: &[CallerRow], by_name: &BTreeMap<Id, Token>) -> usize
    ensures { result ≡ count_by (λ row. unwrap_or (option_map (λ token. not (bytes_eq token row.token))
        (get (slice_cmp nat_cmp) by_name.now row.name)) false) rows.now }
{
    rows.iter()
        .filter(|row| has_new_token(row, by_name))
        .count()
}

fn has_new_token(row: &CallerRow, by_name: &BTreeMap<Id, Token>) -> bool
    ensures { result ≡ unwrap_or (option_map (λ token. not (bytes_eq token row.now.token))
        (get (slice_cmp nat_cmp) by_name.now row.now.name)) false }
{
    match by_name.get(&row.name) {
        Some(token) => token.as_bytes() != row.token.as_bytes(),
        None => false,
    }
}
