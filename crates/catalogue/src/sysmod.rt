//! The record of a SYSMOD.
ghost use Rattle.std.specs.Prelude.{◌≡◌, IfOk};

use crate::{CondNeeds, Ids, NoMemory};
use mcs_reader::Id;

/// The kind of a SYSMOD: the verb of its header (IBM z/OS SMP/E Reference, `++FUNCTION`, `++PTF`,
/// `++APAR`, `++USERMOD`).
#[derive(Clone, Copy, Debug, PartialEq, Eq, PartialOrd, Ord, Hash)]
pub enum SysmodKind {
    /// `++FUNCTION`: a product, or a part of one.
    Func,
    /// `++PTF`: service of the vendor's.
    Ptf,
    /// `++APAR`: a fix of the vendor's before there is a PTF.
    Apar,
    /// `++USERMOD`: the installation's own change.
    Usermod,
}

/// The record of a SYSMOD: what its header and all its `++VER` and `++IF` statements say together.
///
/// The types of the lists keep their ids ascending, each once.
#[derive(Debug, Drop)]
pub struct Sysmod {
    /// The SYSMOD.
    pub id: Id,
    /// The kind, by its header.
    pub kind: SysmodKind,
    /// The functions to which it applies (operand FMID).
    pub fmids: Ids,
    /// The SYSMODs that have to be installed before it (operand PRE).
    pub pre: Ids,
    /// The SYSMODs that have to be installed with it (operand REQ).
    pub req: Ids,
    /// The SYSMODs that have to be installed with it if a function is installed (its `++IF` statements).
    pub conds: CondNeeds,
    /// The SYSMODs that it supersedes, APARs among them (operand SUP).
    pub sup: Ids,
}

impl Sysmod {
    /// Copies the record.
    pub fn copy(&self) -> Result<Self, NoMemory>
        ensures { IfOk result (λ copy. copy ≡ self.now) }
    {
        Ok(Sysmod {
            id: self.id,
            kind: self.kind,
            fmids: self.fmids.copy()?,
            pre: self.pre.copy()?,
            req: self.req.copy()?,
            conds: self.conds.copy()?,
            sup: self.sup.copy()?,
        })
    }
}

impl Clone for Sysmod {
    ghost use Rattle.std.specs.Prelude.{◌≡◌};

    ghost is_clone = { λ sysmod copy. copy ≡ sysmod };

    fn clone(&self) -> Result<Self, NoMemory> {
        self.copy()
    }
}
