//! Records of the catalogue as rows: each with its lists as text, and the ids that it supersedes one by one. A change
//! of a hold makes no row here.
ghost use Rattle.std.specs.Prelude.{◌≡◌, ◌++◌, IfOk, OnOk, flat_map, map};
ghost use Rattle.sql_tables.specs.Rows as row;
ghost use Rattle.sql_writes.specs.Records.{pairs, record_rows, sups_of, values_of};

use catalogue::{Change, NoMemory, Sysmod, SysmodKind};
use mcs_reader::Id;
use sql_tables::joined_ids;
use std::alloc::Global;

/// A record without the ids that it supersedes and those that it requires under a condition, with its lists as they are
/// written.
#[derive(Drop)]
pub struct SysmodRow {
    /// The SYSMOD.
    pub id: Id,
    /// The kind, by its header.
    pub kind: SysmodKind,
    /// The functions to which it applies.
    pub fmids: Vec<u8>,
    /// The SYSMODs that have to be installed before it.
    pub pre: Vec<u8>,
    /// The SYSMODs that have to be installed with it.
    pub req: Vec<u8>,
}

/// A record, and a SYSMOD that it supersedes.
#[derive(Clone, Copy)]
pub struct SupRow {
    /// The record.
    pub id: Id,
    /// The superseded SYSMOD.
    pub member: Id,
}

fn sysmod_row(alloc: Global, sysmod: &Sysmod) -> Result<SysmodRow, NoMemory>
    ensures { IfOk result (λ made. values_of made ≡ row.sysmod_row sysmod.now) }
{
    Ok(SysmodRow {
        id: sysmod.id,
        kind: sysmod.kind,
        fmids: joined_ids(alloc, sysmod.fmids.as_slice())?,
        pre: joined_ids(alloc, sysmod.pre.as_slice())?,
        req: joined_ids(alloc, sysmod.req.as_slice())?,
    })
}

fn add_row(alloc: Global, rows: &mut Vec<SysmodRow>, change: &Change) -> Result<(), NoMemory>
    ensures { OnOk result
        (map values_of rows.new.items ≡ map values_of rows.old.items ++ record_rows change.now) }
{
    match change {
        Change::Whole(sysmod) => rows.push(sysmod_row(alloc, sysmod)?)?,
        Change::OfHold(_) => {}
    }
    Ok(())
}

/// The rows of records.
pub(crate) fn sysmod_rows(alloc: Global, changes: &[Change]) -> Result<Vec<SysmodRow>, NoMemory>
    ensures { IfOk result (λ rows. map values_of rows.items ≡ flat_map record_rows changes.now) }
{
    let mut rows = Vec::with_capacity(alloc, changes.len())?;
    for change in changes {
        add_row(alloc, &mut rows, change)?;
    }
    Ok(rows)
}

fn add_members(rows: &mut Vec<SupRow>, id: &Id, members: &[Id]) -> Result<(), NoMemory>
    ensures { OnOk result (rows.new.items ≡ rows.old.items ++ pairs id.now members.now) }
{
    for member in members {
        rows.push(SupRow {
            id: *id,
            member: *member,
        })?;
    }
    Ok(())
}

fn add_superseded(rows: &mut Vec<SupRow>, change: &Change) -> Result<(), NoMemory>
    ensures { OnOk result (rows.new.items ≡ rows.old.items ++ sups_of change.now) }
{
    match change {
        Change::Whole(sysmod) => add_members(rows, &sysmod.id, sysmod.sup.as_slice()),
        Change::OfHold(_) => Ok(()),
    }
}

/// The ids that records supersede, record by record.
pub(crate) fn sup_rows(alloc: Global, changes: &[Change]) -> Result<Vec<SupRow>, NoMemory>
    ensures { IfOk result (λ rows. rows.items ≡ flat_map sups_of changes.now) }
{
    let mut rows = Vec::new(alloc);
    for change in changes {
        add_superseded(&mut rows, change)?;
    }
    Ok(rows)
}
