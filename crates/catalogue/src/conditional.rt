//! Requisites under a condition.
ghost use Rattle.std.specs.Prelude.{◌≡◌, ◌↔◌, [], IfOk, IfSome, IsTrue, is_some, true};
ghost use Rattle.catalogue.specs.Conditional.{CondsAscend};

use crate::NoMemory;
use mcs_reader::Id;
use std::alloc::Global;
use std::collections::BTreeSet;
use std::marker::Model;

/// A requisite under a condition (IBM z/OS SMP/E Reference, `++IF`): in a zone where the function is installed, the
/// SYSMOD is required. Such requisites are ordered by function, and then by the SYSMOD.
#[derive(Clone, Copy, Debug, PartialEq, Eq, PartialOrd, Ord, Hash)]
pub struct CondNeed {
    /// The function on which it depends (operand FMID).
    pub fmid: Id,
    /// The SYSMOD that is required if the function is installed (operand REQ).
    pub need: Id,
}

/// Requisites under conditions in ascending order, each once. A contract sees the list of them.
#[derive(Debug, Drop)]
pub struct CondNeeds {
    items: Vec<CondNeed>,
}

impl Model for CondNeeds {
    ghost use Rattle.std.specs.Prelude.{List};
    ghost use Rattle.catalogue.specs.Conditional.{CondsAscend};
    ghost use Rattle.catalogue.specs.declared.conditional.CondNeed.{CondNeed};

    ghost Value = { List CondNeed };

    ghost view = { λ conds. conds.items.items };

    ghost invariant = { λ conds. CondsAscend conds.items.items };
}

impl CondNeeds {
    /// None.
    pub fn new(alloc: Global) -> Self
        ensures { result ≡ [] }
    {
        CondNeeds {
            items: Vec::new(alloc),
        }
    }

    /// The requisites of a list, or `None` if they don't ascend or one comes twice. It takes no memory.
    pub fn from_ascending(conds: Vec<CondNeed>) -> Option<Self>
        ensures conds { IfSome result (λ list. list ≡ conds.items) }
        ensures ascending { (is_some result ≡ true) ↔ CondsAscend conds.items }
    {
        if !ascend(conds.as_slice()) {
            return None;
        }
        Some(CondNeeds { items: conds })
    }

    /// The requisites of a set.
    pub(crate) fn from_set(alloc: Global, set: BTreeSet<CondNeed>) -> Result<Self, NoMemory>
        ensures { IfOk result (λ conds. conds ≡ set.keys) }
    {
        Ok(CondNeeds {
            items: listed(alloc, set)?,
        })
    }

    /// The requisites in ascending order, each once.
    pub fn as_slice(&self) -> &[CondNeed]
        ensures value { result.now ≡ self.now }
        ensures ascends { CondsAscend self.now }
    {
        self.items.as_slice()
    }

    /// Copies them.
    pub fn copy(&self) -> Result<Self, NoMemory>
        ensures { IfOk result (λ copy. copy ≡ self.now) }
    {
        Ok(CondNeeds {
            items: self.items.clone()?,
        })
    }
}

// Whether they ascend, each once.
fn ascend(conds: &[CondNeed]) -> bool
    ensures { IsTrue result ↔ CondsAscend conds.now }
{
    conds.is_sorted_by(|cond, next| cond.cmp(next).is_lt())
}

// The requisites of a set in order.
fn listed(alloc: Global, conds: BTreeSet<CondNeed>) -> Result<Vec<CondNeed>, NoMemory>
    ensures conds { IfOk result (λ list. list.items ≡ conds.keys) }
    ensures ascend { IfOk result (λ list. CondsAscend list.items) }
{
    conds.into_iter().collect(alloc)
}
