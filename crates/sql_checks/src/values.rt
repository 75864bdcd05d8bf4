//! Whether the value in a column of a row is one that the bureau writes.
ghost use Rattle.std.specs.Prelude.{◌≡◌, ◌&&◌, ◌↔◌, nat_le, IfOk, IsSome, IsTrue};
ghost use Rattle.std.specs.List.{list_all};
ghost use Rattle.bureau_store.specs.Callers as callers;
ghost use Rattle.sqlite_value.specs.Order as order;
ghost use Rattle.sqlite_value.specs.Value.{owned};
ghost use Rattle.sql_checks.specs.Known.{AreIdsColumn, ArePatternsColumn, IsIdColumn, IsTokenColumn};
ghost use Rattle.sql_tables.specs.Values as value;

use catalogue::Ids;
use sql_reads::are_ascending;
use sql_tables::{NoMemory, id_in, ids_in, patterns_in};
use sqlite::Row;
use sqlite::types::ValueRef;
use std::alloc::Global;

/// The value in a column.
pub(crate) fn column(row: &Row, at: usize) -> ValueRef<'_>
    ensures { owned result ≡ order.column row.now at }
{
    row.get_ref(at).unwrap_or(ValueRef::Null)
}

/// Whether a column has an id.
pub(crate) fn is_id(row: &Row, at: usize) -> bool
    ensures { IsTrue result ↔ IsIdColumn row.now at }
{
    id_in(column(row, at)).is_some()
}

/// Whether a column has a token.
pub(crate) fn is_token(row: &Row, at: usize) -> bool
    ensures { IsTrue result ↔ IsTokenColumn row.now at }
{
    match column(row, at) {
        ValueRef::Text(text) => is_token_text(text),
        _ => false,
    }
}

// Whether the text is a token: 8 to 64 bytes of its alphabet.
fn is_token_text(text: &[u8]) -> bool
    ensures { result ≡ callers.is_token text.now }
{
    is_token_length(text.len()) && are_token_bytes(text)
}

fn is_token_length(length: usize) -> bool
    ensures { result ≡ (nat_le 8 length && nat_le length 64) }
{
    length >= 8 && length <= 64
}

fn are_token_bytes(text: &[u8]) -> bool
    ensures { result ≡ list_all callers.is_token_byte text.now }
{
    text.iter().all(|b| is_token_byte(*b))
}

fn is_token_byte(b: u8) -> bool
    ensures { result ≡ callers.is_token_byte b }
{
    matches!(b, b'A'..=b'Z' | b'a'..=b'z' | b'0'..=b'9' | b'-' | b'.' | b'_' | b'~')
}

/// Whether a column has a number of at least 0.
pub(crate) fn is_number(row: &Row, at: usize) -> bool
    ensures { IsTrue result ↔ IsSome (value.number_in (order.column row.now at)) }
{
    match column(row, at) {
        ValueRef::Int(number) => number >= 0,
        _ => false,
    }
}

/// Whether a column has bytes.
pub(crate) fn is_blob(row: &Row, at: usize) -> bool
    ensures { IsTrue result ↔ IsSome (value.bytes_in (order.column row.now at)) }
{
    matches!(column(row, at), ValueRef::Blob(_))
}

/// Whether a column has ids in ascending order, each once.
pub(crate) fn are_ids(alloc: Global, row: &Row, at: usize) -> Result<bool, NoMemory>
    ensures { IfOk result (λ are. IsTrue are ↔ AreIdsColumn row.now at) }
{
    let Some(ids) = ids_in(alloc, column(row, at))? else {
        return Ok(false);
    };
    Ok(Ids::from_ascending(ids).is_some())
}

/// Whether a column has patterns in ascending order, each once.
pub(crate) fn are_patterns(alloc: Global, row: &Row, at: usize) -> Result<bool, NoMemory>
    ensures { IfOk result (λ are. IsTrue are ↔ ArePatternsColumn row.now at) }
{
    let Some(patterns) = patterns_in(alloc, column(row, at))? else {
        return Ok(false);
    };
    Ok(are_ascending(patterns.as_slice()))
}
