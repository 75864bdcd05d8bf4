//! Lists of ids.
ghost use Rattle.std.specs.Prelude.{◌≡◌, ◌↔◌, [], IfOk, IfSome, IsTrue, is_some, true};
ghost use Rattle.catalogue.specs.Ids.{Ascend};

use crate::NoMemory;
use mcs_reader::Id;
use std::alloc::Global;
use std::collections::BTreeSet;
use std::marker::Model;

/// Ids in ascending order, each once. A contract sees the list of them.
#[derive(Debug, Drop)]
pub struct Ids {
    items: Vec<Id>,
}

impl Model for Ids {
    ghost use Rattle.std.specs.Prelude.{ℕ, List};
    ghost use Rattle.catalogue.specs.Ids.{Ascend};

    ghost Value = { List (List ℕ) };

    ghost view = { λ ids. ids.items.items };

    ghost invariant = { λ ids. Ascend ids.items.items };
}

impl Ids {
    /// No ids.
    pub fn new(alloc: Global) -> Self
        ensures { result ≡ [] }
    {
        Ids {
            items: Vec::new(alloc),
        }
    }

    /// The ids of a list, or `None` if they don't ascend or one comes twice. It takes no memory.
    pub fn from_ascending(ids: Vec<Id>) -> Option<Self>
        ensures ids { IfSome result (λ list. list ≡ ids.items) }
        ensures ascending { (is_some result ≡ true) ↔ Ascend ids.items }
    {
        if !ascend(ids.as_slice()) {
            return None;
        }
        Some(Ids { items: ids })
    }

    /// The ids of a set.
    pub(crate) fn from_set(alloc: Global, set: BTreeSet<Id>) -> Result<Self, NoMemory>
        ensures { IfOk result (λ ids. ids ≡ set.keys) }
    {
        Ok(Ids {
            items: listed(alloc, set)?,
        })
    }

    /// The ids in ascending order, each once.
    pub fn as_slice(&self) -> &[Id]
        ensures value { result.now ≡ self.now }
        ensures ascends { Ascend self.now }
    {
        self.items.as_slice()
    }

    /// Returns the list.
    pub fn into_vec(self) -> Vec<Id>
        ensures value { result.items ≡ self }
        ensures ascends { Ascend self }
    {
        self.items
    }

    /// Copies the ids.
    pub fn copy(&self) -> Result<Self, NoMemory>
        ensures { IfOk result (λ copy. copy ≡ self.now) }
    {
        Ok(Ids {
            items: self.items.clone()?,
        })
    }
}

// Whether ids ascend, each once.
fn ascend(ids: &[Id]) -> bool
    ensures { IsTrue result ↔ Ascend ids.now }
{
    ids.is_sorted_by(|id, next| id.cmp(next).is_lt())
}

/// The ids of a set in order.
pub(crate) fn listed(alloc: Global, ids: BTreeSet<Id>) -> Result<Vec<Id>, NoMemory>
    ensures ids { IfOk result (λ list. list.items ≡ ids.keys) }
    ensures ascend { IfOk result (λ list. Ascend list.items) }
{
    ids.into_iter().collect(alloc)
}
