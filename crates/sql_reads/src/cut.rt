//! Rows in the order of a key, cut up by key.
ghost use Rattle.std.specs.Prelude.{◌≡◌, ◌≢◌, ◌≤◌, ◌↔◌, IfSome, IsTrue, length, take};
ghost use Rattle.std.specs.Cmp.Lexicographic.{slice_cmp};
ghost use Rattle.std.specs.List.{All, slice_get};
ghost use Rattle.std.specs.Ordering.{is_le, nat_cmp};
ghost use Rattle.sql_reads.specs.Scans.{IsCut, KeysRise, key_at};

use sqlite::Row;
use sqlite::types::ValueRef;
use std::cmp::Ordering;

// The text in a column; any other value has none.
fn key_at(row: &Row, place: usize) -> &[u8]
    ensures { result.now ≡ key_at place row.now }
{
    match row.get_ref(place).unwrap_or(ValueRef::Null) {
        ValueRef::Text(text) => text,
        _ => b"",
    }
}

/// Whether no row's key is above the next one's.
pub(crate) fn keys_rise(rows: &[Row], place: usize) -> bool
    ensures { IsTrue result → KeysRise place rows.now }
{
    rows.is_sorted_by(|row, next| is_not_above(row, next, place))
}

// Whether a row's key is not above another's.
fn is_not_above(row: &Row, other: &Row, place: usize) -> bool
    ensures { result ≡ is_le (slice_cmp nat_cmp (key_at place row.now) (key_at place other.now)) }
{
    key_at(row, place).cmp(key_at(other, place)).is_le()
}

// Whether a row's key compares so with a text.
fn stands(row: &Row, place: usize, text: &[u8], wanted: Ordering) -> bool
    ensures { IsTrue result ↔ slice_cmp nat_cmp (key_at place row.now) text.now ≡ wanted }
{
    key_at(row, place).cmp(text) == wanted
}

// The number of rows at the front whose keys compare so with a text.
#[tactic(auto, using(crate::proofs::CutFacts::all_more))]
fn front(rows: &[Row], place: usize, text: &[u8], wanted: Ordering) -> usize
    ensures front { All (λ row. slice_cmp nat_cmp (key_at place row) text.now ≡ wanted)
        (take result rows.now) }
    ensures next { IfSome (slice_get rows.now result)
        (λ row. slice_cmp nat_cmp (key_at place row) text.now ≢ wanted) }
    ensures within { result ≤ length rows.now }
{
    let mut count = 0;
    for row in rows {
        if !stands(row, place, text, wanted) {
            return count;
        }
        count += 1;
    }
    count
}

/// The rows with this key, and those after them, of rows in the order of their keys. Rows with lower keys are passed
/// over.
pub(crate) fn cut<'a>(rows: &'a [Row], place: usize, text: &[u8]) -> (&'a [Row], &'a [Row])
    ensures { KeysRise place rows.now → IsCut place text.now rows.now result.0.now result.1.now }
{
    let lower = front(rows, place, text, Ordering::Less);
    let (_, from) = rows.split_at(lower);
    let count = front(from, place, text, Ordering::Equal);
    from.split_at(count)
}
