//! The meaning of an answer's rows, one by one, and the order in which it comes.
ghost use Rattle.std.specs.Prelude.{◌≡◌, ◌↔◌, List, None, Option, Some, map, IfOk, IfSome, IsErrOf, IsTrue};
ghost use Rattle.std.specs.Cmp.{IsTotalOrder};
ghost use Rattle.std.specs.List.Sorted.{IsStrictlySortedBy};
ghost use Rattle.std.specs.Ordering.{is_lt};
ghost use Rattle.std.specs.declared.cmp.Ordering.{Ordering};
ghost use Rattle.sqlite_value.specs.Order.{Row as Values};

use crate::ReadFault;
use sql_tables::NoMemory;
use sqlite::Row;
use std::alloc::Global;

/// A type with an order of its own.
pub trait Ordered {
    /// The order.
    ghost cmp: { Self → Self → Ordering };

    /// That a list ascends, each once, in the type's own words.
    ghost ascend: { List Self → Type 0 };

    /// Whether one comes before another.
    fn is_below(&self, next: &Self) -> bool
        ensures { result ≡ is_lt (cmp self.now next.now) };

    /// The order is total.
    ghost total: { IsTotalOrder cmp };

    /// A list ascends in those words exactly if it is sorted by the order.
    ghost ascends: { (items : List Self) → ascend items ↔ IsStrictlySortedBy cmp items };
}

/// The meaning of one row.
pub trait Entry: Ordered {
    /// The meaning of the columns that are shown.
    ghost found: { Values → Option Self };

    /// The meaning of a row, or `None` if it has none.
    fn in_row(alloc: Global, row: &Row) -> Result<Option<Self>, NoMemory>
        ensures { IfOk result (λ entry. entry ≡ found row.now) };
}

/// Reads the meaning of each row.
///
/// # Errors
///
/// `Device` if a row has no meaning; `Memory` if memory ran out.
pub fn each<E: Entry + Drop>(alloc: Global, rows: &[Row]) -> Result<Vec<E>, ReadFault>
    ensures said { IfOk result (λ entries. map Some entries.items ≡ map E.found rows.now) }
    ensures unsaid { IsErrOf result ReadFault.Device → (entries : List E)
        → map Some entries ≡ map E.found rows.now → ⊥ }
{
    let mut entries = Vec::with_capacity(alloc, rows.len())?;
    for row in rows {
        let Some(entry) = E::in_row(alloc, row)? else {
            return Err(ReadFault::Device);
        };
        entries.push(entry)?;
    }
    Ok(entries)
}

/// Whether these ascend, each once.
pub fn are_ascending<X: Ordered>(items: &[X]) -> bool
    ensures { IsTrue result ↔ X.ascend items.now }
{
    items.is_sorted_by(|item, next| item.is_below(next))
}

/// These again, if they ascend, each once.
pub(crate) fn ascending<X: Ordered + Drop>(items: Vec<X>) -> Option<Vec<X>>
    ensures same { IfSome result (λ same. same.items ≡ items.items) }
    ensures ascend { IfSome result (λ same. X.ascend same.items) }
    ensures none { result ≡ None → X.ascend items.items → ⊥ }
{
    if !are_ascending(items.as_slice()) {
        return None;
    }
    Some(items)
}

/// Reads the meaning of each row, in ascending order.
///
/// # Errors
///
/// `Device` if a row has no meaning, or what the rows say doesn't ascend, each once; `Memory` if memory ran
/// out.
pub fn entries<E: Entry + Drop>(alloc: Global, rows: &[Row]) -> Result<Vec<E>, ReadFault>
    ensures said { IfOk result (λ entries. map Some entries.items ≡ map E.found rows.now) }
    ensures ascend { IfOk result (λ entries. E.ascend entries.items) }
    ensures unsaid { IsErrOf result ReadFault.Device → (entries : List E)
        → map Some entries ≡ map E.found rows.now → E.ascend entries → ⊥ }
{
    match each::<E>(alloc, rows) {
        Ok(entries) => ascending(entries).ok_or(ReadFault::Device),
        Err(fault) => Err(fault),
    }
}
