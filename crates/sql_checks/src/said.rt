//! The answers in the rows that a store was asked for.
ghost use Rattle.std.specs.Prelude.{◌≡◌, ◌<◌, ℕ, List, None, sum_by, IfOk, IfSome, IsErrOf};
ghost use Rattle.bureau_store.specs.declared.caller.CallerRow.{CallerRow as SomeCallerRow};
ghost use Rattle.sql_checks.specs.Refused as refused;
ghost use Rattle.sql_checks.specs.Refused.{IsCountOf, SaysCallers, SaysCount, SaysLast, SaysZones};

use bureau_store::CallerRow;
use mcs_reader::Id;
use sql_reads::{ReadFault, each_zone, entries, names_ascend};
use sql_tables::{NoMemory, change_in, count_in};
use sqlite::Row;
use std::alloc::Global;

// The greatest number that the database can count.
const MOST_ROWS: u64 = 9_223_372_036_854_775_807;

/// The count in the one row.
pub(crate) fn count(rows: &[Row]) -> Result<u64, ReadFault>
    ensures said { IfOk result (SaysCount rows.now) }
    ensures unsaid { IsErrOf result ReadFault.Device → (count : ℕ) → SaysCount rows.now count → ⊥ }
{
    one_count(rows).ok_or(ReadFault::Device)
}

fn one_count(rows: &[Row]) -> Option<u64>
    ensures { result ≡ refused.count_said rows.now }
{
    match rows {
        [row] => counted(count_in(row)?),
        _ => None,
    }
}

// A count, unless it is the greatest number that the database can count: there may be more.
fn counted(count: u64) -> Option<u64>
    ensures { result ≡ refused.counted count }
{
    if count >= MOST_ROWS {
        return None;
    }
    Some(count)
}

/// The number of the last change, 0 if there is no row.
pub(crate) fn last(alloc: Global, rows: &[Row]) -> Result<u64, ReadFault>
    ensures said { IfOk result (SaysLast rows.now) }
    ensures unsaid { IsErrOf result ReadFault.Device → (number : ℕ) → SaysLast rows.now number → ⊥ }
{
    match number(alloc, rows) {
        Ok(Some(number)) => Ok(number),
        Ok(None) => Err(ReadFault::Device),
        Err(_) => Err(ReadFault::Memory),
    }
}

fn number(alloc: Global, rows: &[Row]) -> Result<Option<u64>, NoMemory>
    ensures { IfOk result (λ number. number ≡ refused.number_said rows.now) }
{
    match rows {
        [] => Ok(Some(0)),
        [row] => match change_in(alloc, row)? {
            Some(change) => Ok(Some(change.0)),
            None => Ok(None),
        },
        _ => Ok(None),
    }
}

/// The number of zones, and that of all their rows.
pub(crate) fn zones(alloc: Global, rows: &[Row]) -> Result<(u64, u64), ReadFault>
    ensures said { IfOk result (SaysZones rows.now) }
    ensures unsaid { IsErrOf result ReadFault.Device → (counts : ℕ × ℕ) → SaysZones rows.now counts → ⊥ }
{
    match each_zone(alloc, rows) {
        Ok(zones) => both_counts(zones.as_slice()).ok_or(ReadFault::Device),
        Err(fault) => Err(fault),
    }
}

// The same, of zones with the number of rows of each.
fn both_counts(zones: &[(Id, u64)]) -> Option<(u64, u64)>
    ensures said { IfSome result (IsCountOf zones.now) }
    ensures unsaid { result ≡ None → (counts : ℕ × ℕ) → IsCountOf zones.now counts → ⊥ }
{
    if !names_ascend(zones) {
        return None;
    }
    match total(zones) {
        Some(rows) => Some((zones.len() as u64, rows)),
        None => None,
    }
}

// The number of rows of all zones, unless that is beyond the greatest number.
fn total(zones: &[(Id, u64)]) -> Option<u64>
    ensures said { IfSome result (λ total. total ≡ sum_by (λ zone. zone.1) zones.now) }
    ensures unsaid { result ≡ None → 18446744073709551615 < sum_by (λ zone. zone.1) zones.now }
{
    let mut total: u64 = 0;
    for zone in zones {
        total = total.checked_add(zone.1)?;
    }
    Some(total)
}

/// The callers of all rows, in the order of their names.
pub(crate) fn callers(alloc: Global, rows: &[Row]) -> Result<Vec<CallerRow>, ReadFault>
    ensures said { IfOk result (λ callers. SaysCallers rows.now callers.items) }
    ensures unsaid { IsErrOf result ReadFault.Device → (callers : List SomeCallerRow)
        → SaysCallers rows.now callers → ⊥ }
{
    entries(alloc, rows)
}
