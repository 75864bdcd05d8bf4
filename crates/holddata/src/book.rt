//! The hold book.
ghost use Rattle.std.specs.Prelude.{◌≡◌, ◌↔◌, length, IsTrue, ◌++◌, [], ◌∷◌, List, IfOk, IfErr, OnOk, OnErr, IsOk, Some, None, if◌then◌else◌};
ghost use Rattle.std.specs.Option.{option_copied};
ghost use Rattle.std.specs.Map.Iter.{ShowsInOrder, deref};
ghost use Rattle.holddata.specs.declared.key.HoldKey.{HoldKey};
ghost use Rattle.holddata.specs.declared.hold.Hold.{Hold};
ghost use Rattle.holddata.specs.declared.hold.HoldChange.{HoldChange};
ghost use Rattle.holddata.specs.HoldChange.{hold_put, IsRearranged};
ghost use Rattle.holddata.specs.HoldBook.{hold_under, holds_on, IsInKeyOrder, IsChanged, IsLeft, book_of};
ghost use Rattle.holddata.specs.Last.{AscendByKey};
ghost use Rattle.holddata.specs.BookText.{book_text};
ghost use Rattle.holddata.specs.Statements.{change_of, changes_of, faults_of, first_of};
ghost use Rattle.holddata.specs.declared.fault.HoldFault.TheVariants.{Memory};
ghost use Rattle.mcs_reader.specs.declared.statement.Statement.{Statement};
ghost use Rattle.faults.specs.Refusal.{IsRefusal};

use crate::map::{HoldMap, copy_holds, hold_at, holds_around, make_change};
use crate::print::{hold_table, push_hold};
use crate::sort_key::sort_key_of;
use crate::{Hold, HoldChange, HoldFault, HoldKey, NoMemory, SortKey, change};
use mcs_reader::{Id, Statement};
use std::alloc::Global;
use std::collections::btree_map::Values;
use std::marker::Model;

/// The holds that are in force, one for a key. A contract sees them in the order of their keys.
#[derive(Drop)]
pub struct HoldBook {
    alloc: Global,
    holds: HoldMap,
}

impl Model for HoldBook {
    ghost use Rattle.std.specs.Prelude.{List};
    ghost use Rattle.std.specs.BTreeMap.{IsOrdered};
    ghost use Rattle.std.specs.Map.{values_of};
    ghost use Rattle.holddata.specs.declared.hold.Hold.{Hold};
    ghost use Rattle.holddata.specs.SortKey.{sort_key_cmp, HasSortKeys};

    ghost Value = { List Hold };

    ghost view = { λ book. values_of book.holds.entries };

    ghost invariant = { λ book. record {
      ordered : IsOrdered sort_key_cmp book.holds;
      sort_keys : HasSortKeys book.holds.entries;
    } };
}

impl HoldBook {
    /// A book without holds.
    pub fn new(alloc: Global) -> Self
        ensures { result ≡ [] }
    {
        HoldBook {
            alloc,
            holds: HoldMap::new(alloc),
        }
    }

    /// The hold under a key.
    pub fn get(&self, key: &HoldKey) -> Option<&Hold>
        ensures { option_copied result ≡ hold_under self.now key.now }
    {
        hold_at(&self.holds, key)
    }

    /// The holds in the order of their keys.
    pub fn iter(&self) -> Values<'_, SortKey, Hold>
        ensures holds { result ≡ self.now }
        ensures runs { ShowsInOrder (deref {X = Hold}) }
        ensures in_key_order { IsInKeyOrder self.now }
    {
        self.holds.values()
    }

    /// The holds on a SYSMOD, in the order of their keys. It looks at no other holds.
    ///
    /// # Errors
    ///
    /// Memory ran out.
    pub fn holds_on(&self, sysmod: &Id) -> Result<Vec<Hold>, NoMemory>
        ensures { IfOk result (λ holds. holds.items ≡ holds_on self.now sysmod.now) }
    {
        let mut holds = Vec::new(self.alloc);
        for (_, hold) in holds_around(&self.holds, sysmod) {
            holds.push(hold.copy()?)?;
        }
        Ok(holds)
    }

    /// The number of holds.
    pub fn len(&self) -> usize
        ensures { result ≡ length self.now }
    {
        self.holds.len()
    }

    /// Whether there is no hold.
    pub fn is_empty(&self) -> bool
        ensures { IsTrue result ↔ (self.now ≡ []) }
    {
        self.holds.is_empty()
    }

    /// Copies the book.
    ///
    /// # Errors
    ///
    /// Memory ran out.
    pub fn copy(&self) -> Result<Self, NoMemory>
        ensures { IfOk result (λ copy. copy ≡ self.now) }
    {
        Ok(HoldBook {
            alloc: self.alloc,
            holds: copy_holds(&self.holds)?,
        })
    }

    /// Makes one change. A put replaces the whole hold of its key. A release removes the hold of its key, whatever its
    /// FMID, and does nothing if there is none.
    ///
    /// # Errors
    ///
    /// Memory ran out, which never stops a release. The book is as it was.
    pub fn apply(&mut self, change: HoldChange) -> Result<(), NoMemory>
        ensures changed { OnOk result (IsChanged change self.old self.new) }
        ensures left { OnOk result ((changes : List HoldChange) →
            IsLeft changes self.old → IsLeft (changes ++ change ∷ []) self.new) }
        ensures book { OnOk result ((changes : List HoldChange) →
            self.old ≡ book_of changes → self.new ≡ book_of (changes ++ change ∷ [])) }
        ensures err { OnErr result (self.new ≡ self.old) }
        ensures release { hold_put change ≡ None → IsOk result }
        ensures in_key_order { IsInKeyOrder self.new }
    {
        make_change(&mut self.holds, change)
    }

    /// Makes the change of one statement, if it makes one (see [`change`]).
    ///
    /// # Errors
    ///
    /// The statement's fault with the lowest number, or [`HoldFault::Memory`]. The book is as it was.
    pub fn apply_statement(&mut self, statement: &Statement) -> Result<(), HoldFault>
        ensures changed { OnOk result ((change : HoldChange) → change_of statement.now ≡ Some change →
            IsChanged change self.old self.new) }
        ensures same { change_of statement.now ≡ None → self.new ≡ self.old }
        ensures left { OnOk result ((statements : List Statement) →
            IsLeft (changes_of statements) self.old → IsLeft (changes_of (statements ++ statement.now ∷ [])) self.new) }
        ensures book { OnOk result ((statements : List Statement) →
            self.old ≡ book_of (changes_of statements) →
            self.new ≡ book_of (changes_of (statements ++ statement.now ∷ []))) }
        ensures no_fault { OnOk result (faults_of statement.now ≡ []) }
        ensures fault { IfErr result (IsRefusal Memory
            (λ fault. first_of (faults_of statement.now) ≡ Some fault)) }
        ensures err { OnErr result (self.new ≡ self.old) }
    {
        if let Some(change) = change(self.alloc, statement)? {
            self.apply(change)?;
        }
        Ok(())
    }

    /// Makes more changes, in their order, as [`apply`](HoldBook::apply) makes one after the other. It puts them in the
    /// order of their keys first, and so goes through the book once.
    ///
    /// # Errors
    ///
    /// Memory ran out, and the book is gone.
    pub fn with_changes(self, changes: Vec<HoldChange>) -> Result<Self, NoMemory>
        ensures left { IfOk result (λ book. (before : List HoldChange) → IsLeft before self →
            IsLeft (before ++ changes.items) book) }
        ensures book { IfOk result (λ book. (before : List HoldChange) → self ≡ book_of before →
            book ≡ book_of (before ++ changes.items)) }
    {
        let mut changes = changes;
        sort_by_key(&mut changes)?;
        let mut book = self;
        for change in changes {
            book.apply(change)?;
        }
        Ok(book)
    }

    /// Prints the book: a heading, a row for each hold in the order of the keys, and their count. Each line ends with
    /// LF. A field that is absent is `-`.
    ///
    /// # Errors
    ///
    /// Memory ran out.
    pub fn text(&self) -> Result<Vec<u8>, NoMemory>
        ensures { IfOk result (λ text. text.items ≡ book_text self.now) }
    {
        let mut table = hold_table(self.alloc)?;
        for hold in self.holds.values() {
            push_hold(&mut table, hold)?;
        }
        table.finish()
    }
}

/// Makes the book that changes leave. Under each key it has the hold that the last change of that key puts, and none if
/// that is a release or no change names the key.
///
/// # Errors
///
/// Memory ran out.
pub fn book_left(alloc: Global, changes: Vec<HoldChange>) -> Result<HoldBook, NoMemory>
    ensures book { IfOk result (λ book. book ≡ book_of changes.items) }
    ensures left { IsLeft changes.items (book_of changes.items) }
    ensures only { (book : List Hold) → IsLeft changes.items book → book ≡ book_of changes.items }
{
    HoldBook::new(alloc).with_changes(changes)
}

/// Puts changes in the order of the keys that they name. Those that name one key stay in their order.
pub(crate) fn sort_by_key(changes: &mut Vec<HoldChange>) -> Result<(), NoMemory>
    ensures same { IsRearranged changes.old.items changes.new.items }
    ensures ascending { OnOk result (AscendByKey changes.new.items) }
{
    changes.sort_by_cached_key(|change| sort_key_of(&change.key()))
}
