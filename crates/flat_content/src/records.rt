//! Records whose lists are parts of one list of ids and of one of requisites under conditions.
ghost use Rattle.std.specs.Prelude.{◌≡◌, ◌++◌, ◌∷◌, List, [], IfOk, OnOk, find, length, map};
ghost use Rattle.catalogue.specs.Content.{ids_in, is_of};
ghost use Rattle.catalogue.specs.Ids.{Ascend};
ghost use Rattle.catalogue.specs.Publication.{catalogue_of};
ghost use Rattle.flat_content.specs.Records.{IsHead, fmids_of, pre_of, record_at, req_of, sup_of};
ghost use Rattle.flat_content.specs.Spans.{Keeps};

use crate::heads::{head_for, put_in_order};
use crate::spans::{Span, conds_copied, copied, put, put_conds};
use catalogue::{CondNeed, NoMemory, Sysmod, SysmodKind};
use mcs_reader::Id;
use std::alloc::Global;
use std::marker::Model;

/// The head of a record: its id, and the spans of its lists among those of all records. Its lists of ids follow one
/// another, so the first start and the ends are enough.
#[derive(Clone, Copy, Debug)]
pub(crate) struct Head {
    pub(crate) id: Id,
    pub(crate) kind: SysmodKind,
    start: u32,
    fmids: u32,
    pre: u32,
    req: u32,
    sup: u32,
    conds: Span,
}

impl Head {
    fn fmids(&self) -> Span
        ensures { result ≡ fmids_of self.now }
    {
        Span {
            start: self.start,
            end: self.fmids,
        }
    }

    fn pre(&self) -> Span
        ensures { result ≡ pre_of self.now }
    {
        Span {
            start: self.fmids,
            end: self.pre,
        }
    }

    fn req(&self) -> Span
        ensures { result ≡ req_of self.now }
    {
        Span {
            start: self.pre,
            end: self.req,
        }
    }

    /// The span of the ids that the record supersedes.
    pub(crate) fn sup(&self) -> Span
        ensures { result ≡ sup_of self.now }
    {
        Span {
            start: self.req,
            end: self.sup,
        }
    }
}

/// Records in a row. A contract sees the list of them.
#[derive(Drop)]
pub(crate) struct Records {
    pub(crate) alloc: Global,
    pub(crate) heads: Vec<Head>,
    pub(crate) names: Vec<Id>,
    pub(crate) conds: Vec<CondNeed>,
}

impl Model for Records {
    ghost use Rattle.std.specs.Prelude.{List};
    ghost use Rattle.catalogue.specs.declared.sysmod.Sysmod.{Sysmod};
    ghost use Rattle.flat_content.specs.Records.{AreHeads, records_of};

    ghost Value = { List Sysmod };

    ghost view = { λ records. records_of records.names.items records.conds.items records.heads.items };

    ghost invariant = { λ records. AreHeads records.names.items records.conds.items records.heads.items };
}

impl Records {
    /// None.
    pub(crate) fn new(alloc: Global) -> Self
        ensures { result ≡ [] }
    {
        Records {
            alloc,
            heads: Vec::new(alloc),
            names: Vec::new(alloc),
            conds: Vec::new(alloc),
        }
    }

    /// Adds one more record.
    pub(crate) fn with(self, sysmod: Sysmod) -> Result<Self, NoMemory>
        ensures { IfOk result (λ now. now ≡ self ++ sysmod ∷ []) }
    {
        let Records {
            alloc,
            mut heads,
            mut names,
            mut conds,
        } = self;
        let head = head_of(&mut names, &mut conds, sysmod)?;
        heads.push(head)?;
        Ok(Records {
            alloc,
            heads,
            names,
            conds,
        })
    }

    /// Keeps the last record of each id, in the order of the ids, in as little room as they take.
    pub(crate) fn catalogue(self) -> Result<Self, NoMemory>
        ensures value { IfOk result (λ now. now ≡ catalogue_of self) }
        ensures ascend { IfOk result (λ now. Ascend (ids_in now)) }
    {
        let Records {
            alloc,
            mut heads,
            mut names,
            mut conds,
        } = self;
        put_in_order(&mut heads)?;
        heads.shrink_to_fit();
        names.shrink_to_fit();
        conds.shrink_to_fit();
        Ok(Records {
            alloc,
            heads,
            names,
            conds,
        })
    }

    /// The number of records.
    pub(crate) fn count(&self) -> usize
        ensures { result ≡ length self.now }
    {
        self.heads.len()
    }

    /// The ids of all records.
    pub(crate) fn ids(&self) -> Result<Vec<Id>, NoMemory>
        ensures { IfOk result (λ ids. ids.items ≡ ids_in self.now) }
    {
        ids_listed(self.alloc, &self.heads)
    }

    /// The record of an id.
    pub(crate) fn get(&self, id: &Id) -> Result<Option<Sysmod>, NoMemory>
        requires { Ascend (ids_in self.now) }
        ensures { IfOk result (λ found. found ≡ find (is_of id.now) self.now) }
    {
        match head_for(&self.heads, id) {
            Some(head) => Ok(Some(record_of(self.alloc, &self.names, &self.conds, head)?)),
            None => Ok(None),
        }
    }
}

// The ids of records.
fn ids_listed(alloc: Global, heads: &[Head]) -> Result<Vec<Id>, NoMemory>
    ensures { IfOk result (λ ids. ids.items ≡ map (λ head. head.id) heads.now) }
{
    let mut ids = Vec::with_capacity(alloc, heads.len())?;
    for head in heads {
        ids.push(head.id)?;
    }
    Ok(ids)
}

// Keeps the head of a record, and puts its lists after all others.
fn head_of(
    names: &mut Vec<Id>,
    all_conds: &mut Vec<CondNeed>,
    sysmod: Sysmod,
) -> Result<Head, NoMemory>
    ensures keeps { OnOk result (Keeps names.old.items names.new.items) }
    ensures keeps_conds { OnOk result (Keeps all_conds.old.items all_conds.new.items) }
    ensures is_head { IfOk result (IsHead names.new.items all_conds.new.items) }
    ensures record { IfOk result (λ head. record_at names.new.items all_conds.new.items head ≡ sysmod) }
{
    let fmids = put(names, &sysmod.fmids)?;
    let pre = put(names, &sysmod.pre)?;
    let req = put(names, &sysmod.req)?;
    let sup = put(names, &sysmod.sup)?;
    let conds = put_conds(all_conds, &sysmod.conds)?;
    Ok(Head {
        id: sysmod.id,
        kind: sysmod.kind,
        start: fmids.start,
        fmids: fmids.end,
        pre: pre.end,
        req: req.end,
        sup: sup.end,
        conds,
    })
}

// The record of which a head is kept.
fn record_of(
    alloc: Global,
    names: &[Id],
    conds: &[CondNeed],
    head: &Head,
) -> Result<Sysmod, NoMemory>
    requires { IsHead names.now conds.now head.now }
    ensures { IfOk result (λ sysmod. sysmod ≡ record_at names.now conds.now head.now) }
{
    Ok(Sysmod {
        id: head.id,
        kind: head.kind,
        fmids: copied(alloc, names, head.fmids())?,
        pre: copied(alloc, names, head.pre())?,
        req: copied(alloc, names, head.req())?,
        conds: conds_copied(alloc, conds, head.conds)?,
        sup: copied(alloc, names, head.sup())?,
    })
}
