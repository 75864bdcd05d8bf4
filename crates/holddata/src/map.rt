//! The map in which a book keeps its holds.
ghost use Rattle.std.specs.Prelude.{◌≡◌, IfOk, OnOk, OnErr, IsOk, Some, None, if◌then◌else◌};
ghost use Rattle.std.specs.BTreeMap.{IsOrdered};
ghost use Rattle.std.specs.Map.{values_of};
ghost use Rattle.holddata.specs.declared.key.HoldKey.{HoldKey};
ghost use Rattle.std.specs.Option.{option_copied};
ghost use Rattle.holddata.specs.HoldKey.{is_same_key};
ghost use Rattle.holddata.specs.HoldChange.{hold_put};
ghost use Rattle.holddata.specs.HoldBook.{hold_under, holds_on, IsChanged};
ghost use Rattle.holddata.specs.SortKey.{HasSortKeys, sort_key_cmp};

use crate::sort_key::{SortKey, sort_key_of, sort_keys_around};
use crate::{Hold, HoldChange, HoldKey, NoMemory};
use mcs_reader::Id;
use std::collections::BTreeMap;
use std::collections::btree_map::Range;

pub(crate) type HoldMap = BTreeMap<SortKey, Hold>;

/// Copies the map.
pub(crate) fn copy_holds(holds: &HoldMap) -> Result<HoldMap, NoMemory>
    ensures { IfOk result (λ copy. copy.entries ≡ holds.now.entries) }
{
    holds.clone()
}

/// The hold under a key.
pub(crate) fn hold_at<'a>(holds: &'a HoldMap, key: &HoldKey) -> Option<&'a Hold>
    requires { HasSortKeys holds.now.entries }
    ensures { option_copied result ≡ hold_under (values_of holds.now.entries) key.now }
{
    holds.get(&sort_key_of(key))
}

/// The holds on a SYSMOD.
pub(crate) fn holds_around<'a>(holds: &'a HoldMap, sysmod: &Id) -> Range<'a, SortKey, Hold>
    requires { HasSortKeys holds.now.entries }
    ensures { values_of result ≡ holds_on (values_of holds.now.entries) sysmod.now }
{
    let (before, after) = sort_keys_around(sysmod);
    holds.range(before..after)
}

/// Makes one change.
pub(crate) fn make_change(holds: &mut HoldMap, change: HoldChange) -> Result<(), NoMemory>
    requires { HasSortKeys holds.old.entries }
    ensures changed { OnOk result
        (IsChanged change (values_of holds.old.entries) (values_of holds.new.entries)) }
    ensures ordered { IsOrdered sort_key_cmp holds.new }
    ensures sort_keys { HasSortKeys holds.new.entries }
    ensures err { OnErr result (holds.new.entries ≡ holds.old.entries) }
    ensures release { hold_put change ≡ None → IsOk result }
{
    match change {
        HoldChange::Put(hold) => put(holds, hold),
        HoldChange::Release(key) => {
            release(holds, &key);
            Ok(())
        }
    }
}

fn put(holds: &mut HoldMap, hold: Hold) -> Result<(), NoMemory>
    requires { HasSortKeys holds.old.entries }
    ensures updates { OnOk result ((key : HoldKey) →
        hold_under (values_of holds.new.entries) key
        ≡ (if is_same_key hold.key key then Some hold else hold_under (values_of holds.old.entries) key)) }
    ensures ordered { IsOrdered sort_key_cmp holds.new }
    ensures sort_keys { HasSortKeys holds.new.entries }
    ensures err { OnErr result (holds.new.entries ≡ holds.old.entries) }
{
    holds.insert(sort_key_of(&hold.key), hold)?;
    Ok(())
}

fn release(holds: &mut HoldMap, key: &HoldKey)
    requires { HasSortKeys holds.old.entries }
    ensures updates { (q : HoldKey) →
        hold_under (values_of holds.new.entries) q
        ≡ (if is_same_key key.now q then None else hold_under (values_of holds.old.entries) q) }
    ensures ordered { IsOrdered sort_key_cmp holds.new }
    ensures sort_keys { HasSortKeys holds.new.entries }
{
    holds.remove(&sort_key_of(key));
}
