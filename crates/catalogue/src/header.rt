//! A SYSMOD whose header was read, and not yet all of its statements.
ghost use Rattle.std.specs.Prelude.{◌≡◌, ◌++◌, [], true, false, IfOk, OnOk, IfErr};
ghost use Rattle.faults.specs.Refusal.{IsRefusal};
ghost use Rattle.mcs_reader.specs.Bytes.{bytes_of_each};
ghost use Rattle.mcs_reader.specs.Id.{id_of};
ghost use Rattle.mcs_reader.specs.Operand.{operand_text, operand_texts};
ghost use Rattle.std.specs.List.{filter_map, list_any};
ghost use Rattle.holddata.specs.Operands.{named_values, values_of};
ghost use Rattle.holddata.specs.Statements.{first_of};
ghost use Rattle.catalogue.specs.declared.fault.CatFault.TheVariants.{BadId, Memory};
ghost use Rattle.catalogue.specs.Conditional as spec;
ghost use Rattle.catalogue.specs.Conditional.{required_under};
ghost use Rattle.catalogue.specs.Ids.{in_order, put_among};
ghost use Rattle.catalogue.specs.Opened.{sysmod_opened};
ghost use Rattle.catalogue.specs.Reading.{has_bad_id, if_faults, is_no_id, record_by, with_if, with_ver};

use crate::ids::listed;
use crate::{CatFault, CondNeed, CondNeeds, Ids, NoMemory, Sysmod, SysmodKind};
use holddata::sole_value;
use mcs_reader::{Id, Operand, Statement};
use std::alloc::Global;
use std::collections::BTreeSet;

/// The record of a header as far as its `++VER` and `++IF` statements were read.
#[derive(Drop)]
pub(crate) struct Open {
    pub(crate) id: Id,
    pub(crate) kind: SysmodKind,
    pub(crate) fmids: BTreeSet<Id>,
    pub(crate) pre: BTreeSet<Id>,
    pub(crate) req: BTreeSet<Id>,
    pub(crate) conds: BTreeSet<CondNeed>,
    pub(crate) sup: BTreeSet<Id>,
}

impl Open {
    /// The record of the header alone.
    pub(crate) fn new(alloc: Global, id: Id, kind: SysmodKind) -> Self
        ensures { sysmod_opened result ≡ record_by kind id [] [] }
    {
        Open {
            id,
            kind,
            fmids: BTreeSet::new(alloc),
            pre: BTreeSet::new(alloc),
            req: BTreeSet::new(alloc),
            conds: BTreeSet::new(alloc),
            sup: BTreeSet::new(alloc),
        }
    }

    /// The record with what a `++VER` says.
    pub(crate) fn with(self, ver: &Statement) -> Result<Self, CatFault>
        ensures read { IfOk result (λ now. sysmod_opened now ≡ with_ver ver.now (sysmod_opened self)) }
        ensures no_fault { OnOk result (has_bad_id ver.now ≡ false) }
        ensures fault { IfErr result (IsRefusal Memory
            (λ fault. (fault ≡ BadId ver.now.line) × (has_bad_id ver.now ≡ true))) }
    {
        let line = ver.line;
        let operands = ver.operands.as_slice();
        let mut open = self;
        put_named(&mut open.fmids, line, operands, b"FMID")?;
        put_named(&mut open.pre, line, operands, b"PRE")?;
        put_named(&mut open.req, line, operands, b"REQ")?;
        put_named(&mut open.sup, line, operands, b"SUP")?;
        Ok(open)
    }

    /// The record with what an `++IF` says.
    pub(crate) fn under(self, alloc: Global, condition: &Statement) -> Result<Self, CatFault>
        ensures read { IfOk result (λ now. sysmod_opened now ≡ with_if condition.now (sysmod_opened self)) }
        ensures no_fault { OnOk result (if_faults condition.now ≡ []) }
        ensures fault { IfErr result (IsRefusal Memory
            (λ fault. first_of (if_faults condition.now) ≡ Some fault)) }
    {
        let line = condition.line;
        let operands = condition.operands.as_slice();
        let fmid = sole_value(operands, b"FMID").ok_or(CatFault::IfFmid(line))?;
        let fmid = Id::new(fmid).ok_or(CatFault::BadId(line))?;
        let needs = ids_named(alloc, line, operands, b"REQ")?;
        let mut open = self;
        put_conds(&mut open.conds, fmid, needs.as_slice())?;
        Ok(open)
    }

    /// The record as it is published.
    pub(crate) fn record(self, alloc: Global) -> Result<Sysmod, NoMemory>
        ensures { IfOk result (λ sysmod. sysmod ≡ sysmod_opened self) }
    {
        let Open {
            id,
            kind,
            fmids,
            pre,
            req,
            conds,
            sup,
        } = self;
        Ok(Sysmod {
            id,
            kind,
            fmids: Ids::from_set(alloc, fmids)?,
            pre: Ids::from_set(alloc, pre)?,
            req: Ids::from_set(alloc, req)?,
            conds: CondNeeds::from_set(alloc, conds)?,
            sup: Ids::from_set(alloc, sup)?,
        })
    }
}

// The ids that operands of this name give, in order.
fn ids_named(
    alloc: Global,
    line: u32,
    operands: &[Operand],
    name: &[u8],
) -> Result<Vec<Id>, CatFault>
    ensures ids { IfOk result (λ ids. ids.items
        ≡ in_order (filter_map id_of (values_of name.now (operand_texts operands.now)))) }
    ensures no_fault { OnOk result
        (list_any is_no_id (values_of name.now (operand_texts operands.now)) ≡ false) }
    ensures fault { IfErr result (IsRefusal Memory (λ fault. (fault ≡ BadId line)
        × (list_any is_no_id (values_of name.now (operand_texts operands.now)) ≡ true))) }
{
    let mut ids = BTreeSet::new(alloc);
    put_named(&mut ids, line, operands, name)?;
    Ok(listed(alloc, ids)?)
}

// Adds the requisites that need this function.
fn put_conds(conds: &mut BTreeSet<CondNeed>, fmid: Id, needs: &[Id]) -> Result<(), NoMemory>
    ensures { OnOk result (conds.new.keys ≡ spec.put_conds conds.old.keys (required_under fmid needs.now)) }
{
    for need in needs {
        conds.insert(CondNeed { fmid, need: *need })?;
    }
    Ok(())
}

// Adds the ids that operands of this name give.
fn put_named(
    ids: &mut BTreeSet<Id>,
    line: u32,
    operands: &[Operand],
    name: &[u8],
) -> Result<(), CatFault>
    ensures ids { OnOk result (ids.new.keys
        ≡ put_among ids.old.keys (filter_map id_of (values_of name.now (operand_texts operands.now)))) }
    ensures no_fault { OnOk result
        (list_any is_no_id (values_of name.now (operand_texts operands.now)) ≡ false) }
    ensures fault { IfErr result (IsRefusal Memory (λ fault. (fault ≡ BadId line)
        × (list_any is_no_id (values_of name.now (operand_texts operands.now)) ≡ true))) }
{
    for operand in operands {
        put_values(ids, line, values_named(operand, name))?;
    }
    Ok(())
}

// The values of an operand if it has the name.
fn values_named<'a, 'b>(operand: &'a Operand<'b>, name: &[u8]) -> &'a [&'b [u8]]
    ensures { bytes_of_each result.now ≡ named_values name.now (operand_text operand.now) }
{
    if operand.name.eq_ignore_ascii_case(name) {
        operand.values.as_slice()
    } else {
        &[]
    }
}

// Adds the ids of values.
fn put_values(ids: &mut BTreeSet<Id>, line: u32, values: &[&[u8]]) -> Result<(), CatFault>
    ensures ids { OnOk result (ids.new.keys
        ≡ put_among ids.old.keys (filter_map id_of (bytes_of_each values.now))) }
    ensures no_fault { OnOk result (list_any is_no_id (bytes_of_each values.now) ≡ false) }
    ensures fault { IfErr result (IsRefusal Memory (λ fault. (fault ≡ BadId line)
        × (list_any is_no_id (bytes_of_each values.now) ≡ true))) }
{
    for value in values {
        let id = Id::new(value).ok_or(CatFault::BadId(line))?;
        ids.insert(id)?;
    }
    Ok(())
}
