//! Rows as a read finds them. A row that stands for nothing is `None`.
ghost use Rattle.std.specs.Prelude.{◌≡◌, option_map, Some, None, IfOk, IfSome};
ghost use Rattle.sqlite_value.specs.Value.{owned};
ghost use Rattle.sqlite_value.specs.Order as order;
ghost use Rattle.catalogue.specs.Ids.{Ascend};
ghost use Rattle.catalogue.specs.declared.sysmod.Sysmod.{Sysmod as SomeSysmod};
ghost use Rattle.sql_tables.specs.Rows as spec;
ghost use Rattle.sql_tables.specs.Values as value;

use crate::NoMemory;
use crate::lists::{categories_in, ids_in, patterns_in};
use crate::values::{
    bytes_in, date_in, hold_kind_in, id_in, number_in, optional_id_in, state_in, sysmod_kind_in,
    text_in,
};
use bureau_store::{CallerRow, Token};
use catalogue::{CondNeed, CondNeeds, Ids, Sysmod};
use holddata::{Hold, HoldKey};
use mcs_reader::Id;
use sqlite::Row;
use sqlite::types::ValueRef;
use std::alloc::Global;
use zone_lists::{Pattern, ZoneRow};

// The value in a column.
fn column(row: &Row, at: usize) -> ValueRef<'_>
    ensures { owned result ≡ order.column row.now at }
{
    row.get_ref(at).unwrap_or(ValueRef::Null)
}

/// The id in the first column.
pub fn id_row_in(row: &Row) -> Option<Id>
    ensures { result ≡ value.id_in (order.column row.now 0) }
{
    id_in(column(row, 0))
}

/// The number in the first column.
pub fn count_in(row: &Row) -> Option<u64>
    ensures { result ≡ value.number_in (order.column row.now 0) }
{
    number_in(column(row, 0))
}

/// A SYSMOD of a zone with its state, by the columns `sysmod` and `state`.
pub fn zone_row_in(row: &Row) -> Option<ZoneRow>
    ensures { result ≡ spec.zone_row_found row.now }
{
    let sysmod = id_in(column(row, 0))?;
    let state = state_in(column(row, 1))?;
    Some(ZoneRow { sysmod, state })
}

/// The key of a hold, by the columns `sysmod`, `kind` and `reason`.
fn key_in(row: &Row) -> Option<HoldKey>
    ensures { result ≡ spec.key_found row.now }
{
    let sysmod = id_in(column(row, 0))?;
    let kind = hold_kind_in(column(row, 1))?;
    let reason = id_in(column(row, 2))?;
    Some(HoldKey {
        sysmod,
        kind,
        reason,
    })
}

/// A hold, by all columns of its table.
///
/// # Errors
///
/// Memory ran out.
pub fn hold_in(alloc: Global, row: &Row) -> Result<Option<Hold>, NoMemory>
    ensures { IfOk result (λ found. found ≡ spec.hold_found row.now) }
{
    let Some(key) = key_in(row) else {
        return Ok(None);
    };
    hold_with(alloc, key, row)
}

// The hold with this key, by the other columns.
fn hold_with(alloc: Global, key: HoldKey, row: &Row) -> Result<Option<Hold>, NoMemory>
    ensures { IfOk result (λ found. found ≡ spec.hold_with key row.now) }
{
    let Some(fmid) = optional_id_in(column(row, 3)) else {
        return Ok(None);
    };
    let Some(class) = optional_id_in(column(row, 4)) else {
        return Ok(None);
    };
    let Some(dated) = date_in(column(row, 5)) else {
        return Ok(None);
    };
    let Some(resolver) = optional_id_in(column(row, 6)) else {
        return Ok(None);
    };
    let Some(categories) = categories_in(alloc, column(row, 7))? else {
        return Ok(None);
    };
    Ok(Some(Hold {
        key,
        fmid,
        class,
        resolver,
        dated,
        categories,
    }))
}

/// A caller with its token, by all columns of its table.
///
/// # Errors
///
/// Memory ran out.
pub fn caller_in(alloc: Global, row: &Row) -> Result<Option<CallerRow>, NoMemory>
    ensures { IfOk result (λ found. found ≡ spec.caller_found row.now) }
{
    let Some(name) = id_in(column(row, 0)) else {
        return Ok(None);
    };
    let token = Vec::from_slice(alloc, text_in(column(row, 1)))?;
    let token = Token::new(token);
    Ok(Some(CallerRow { name, token }))
}

/// A caller's last change, by the columns `number` and `body`: its number and the reply that is kept.
///
/// # Errors
///
/// Memory ran out.
pub fn change_in(alloc: Global, row: &Row) -> Result<Option<(u64, Vec<u8>)>, NoMemory>
    ensures { IfOk result (λ found.
        option_map (λ change. record { number = change.0; reply = change.1.items }) found
        ≡ spec.change_found row.now) }
{
    let Some(number) = number_in(column(row, 0)) else {
        return Ok(None);
    };
    let Some(reply) = bytes_in(column(row, 1)) else {
        return Ok(None);
    };
    let reply = Vec::from_slice(alloc, reply)?;
    Ok(Some((number, reply)))
}

/// The ids of the list in the first column, in their order.
///
/// # Errors
///
/// Memory ran out.
pub fn ids_row_in(alloc: Global, row: &Row) -> Result<Option<Vec<Id>>, NoMemory>
    ensures { IfOk result (λ found.
        option_map (λ ids. ids.items) found ≡ value.ids_in (order.column row.now 0)) }
{
    ids_in(alloc, column(row, 0))
}

/// The patterns of the list in the first column, in their order.
///
/// # Errors
///
/// Memory ran out.
pub fn patterns_row_in(alloc: Global, row: &Row) -> Result<Option<Vec<Pattern>>, NoMemory>
    ensures { IfOk result (λ found.
        option_map (λ patterns. patterns.items) found ≡ value.patterns_in (order.column row.now 0)) }
{
    patterns_in(alloc, column(row, 0))
}

// The ids of a list that ascends, each once.
fn ascending_in(alloc: Global, list: ValueRef<'_>) -> Result<Option<Ids>, NoMemory>
    ensures ids { IfOk result (λ found. IfSome found (λ ids. value.ids_in (owned list.entry) ≡ Some ids)) }
    ensures none { IfOk result (λ found. found ≡ None
        → (ids : _) → value.ids_in (owned list.entry) ≡ Some ids → Ascend ids → ⊥) }
{
    let Some(ids) = ids_in(alloc, list)? else {
        return Ok(None);
    };
    Ok(Ids::from_ascending(ids))
}

/// A function and the SYSMOD that is required if it is installed, by the columns `fmid` and `member`.
pub fn cond_in(row: &Row) -> Option<CondNeed>
    ensures { result ≡ spec.cond_found row.now }
{
    let fmid = id_in(column(row, 0))?;
    let need = id_in(column(row, 1))?;
    Some(CondNeed { fmid, need })
}

/// A record of the catalogue, by all columns of its table, with its requisites under a condition and the ids
/// that it supersedes.
///
/// # Errors
///
/// Memory ran out.
pub fn sysmod_in(
    alloc: Global,
    row: &Row,
    conds: CondNeeds,
    sup: Ids,
) -> Result<Option<Sysmod>, NoMemory>
    ensures record { IfOk result (λ found. IfSome found (λ sysmod.
        spec.sysmod_found (record { conds = conds; sup = sup }) row.now ≡ Some sysmod)) }
    ensures none { IfOk result (λ found. found ≡ None → (sysmod : SomeSysmod)
        → spec.sysmod_found (record { conds = conds; sup = sup }) row.now ≡ Some sysmod
        → Ascend sysmod.fmids → Ascend sysmod.pre → Ascend sysmod.req → ⊥) }
{
    let Some(id) = id_in(column(row, 0)) else {
        return Ok(None);
    };
    let Some(kind) = sysmod_kind_in(column(row, 1)) else {
        return Ok(None);
    };
    let Some(fmids) = ascending_in(alloc, column(row, 2))? else {
        return Ok(None);
    };
    let Some(pre) = ascending_in(alloc, column(row, 3))? else {
        return Ok(None);
    };
    let Some(req) = ascending_in(alloc, column(row, 4))? else {
        return Ok(None);
    };
    Ok(Some(Sysmod {
        id,
        kind,
        fmids,
        pre,
        req,
        conds,
        sup,
    }))
}
