//! The book in print, straight from the changes that leave it.
ghost use Rattle.std.specs.Prelude.{◌≡◌, IfOk};
ghost use Rattle.std.specs.Option.{option_copied};
ghost use Rattle.holddata.specs.BookText.{book_text};
ghost use Rattle.holddata.specs.HoldBook.{book_of, IsLeft};
ghost use Rattle.holddata.specs.HoldKey.{is_same_key};
ghost use Rattle.holddata.specs.Last.{is_renamed, put_last};

use crate::book::sort_by_key;
use crate::print::{hold_table, push_hold};
use crate::{Hold, HoldChange, HoldKey, NoMemory};

/// Prints the book that changes leave: the [`text`](crate::HoldBook::text) of [`book_left`](crate::book_left). It
/// puts the changes in the order of their keys, and makes no book.
///
/// # Errors
///
/// Memory ran out.
pub fn book_text_left(changes: Vec<HoldChange>) -> Result<Vec<u8>, NoMemory>
    ensures text { IfOk result (λ text. text.items ≡ book_text (book_of changes.items)) }
    ensures left { IsLeft changes.items (book_of changes.items) }
{
    let alloc = *changes.allocator();
    let mut changes = changes;
    sort_by_key(&mut changes)?;
    let mut table = hold_table(alloc)?;
    let mut left = changes.as_slice();
    'changes: while let Some((change, rest)) = left.split_first() {
        if let Some(hold) = put_last(change, rest) {
            push_hold(&mut table, hold)?;
        }
        left = rest;
    }
    table.finish()
}

// The hold that a change puts, unless the next one names its key again.
fn put_last<'a>(change: &'a HoldChange, rest: &[HoldChange]) -> Option<&'a Hold>
    ensures { option_copied result ≡ put_last change.now rest.now }
{
    match change {
        HoldChange::Put(hold) if !is_renamed(&hold.key, rest) => Some(hold),
        _ => None,
    }
}

// Whether the next change names the key.
fn is_renamed(key: &HoldKey, rest: &[HoldChange]) -> bool
    ensures { result ≡ is_renamed key.now rest.now }
{
    match rest.first() {
        Some(next) => is_same_key(key, &next.key()),
        None => false,
    }
}

fn is_same_key(a: &HoldKey, b: &HoldKey) -> bool
    ensures { result ≡ is_same_key a.now b.now }
{
    a.sysmod == b.sysmod && a.kind == b.kind && a.reason == b.reason
}
