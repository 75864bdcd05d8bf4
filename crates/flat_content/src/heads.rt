//! Heads of records in the order of their ids.
ghost use Rattle.std.specs.Prelude.{◌≡◌, ℕ, List, Contains, OnOk, find, option_map, reverse};
ghost use Rattle.std.specs.List.Sorted.{IsPermutation, IsSortedByKey};
ghost use Rattle.catalogue.specs.Ids.{id_cmp};
ghost use Rattle.flat_content.specs.declared.records.Head.{Head};
ghost use Rattle.flat_content.specs.Records.{HeadsAscend, is_head_of};

use crate::records::Head;
use catalogue::NoMemory;
use mcs_reader::Id;
use std::cmp::Ordering;

/// Puts heads in the order of their ids, and of several with one id keeps the last.
pub(crate) fn put_in_order(heads: &mut Vec<Head>) -> Result<(), NoMemory>
    ensures ascend { OnOk result (HeadsAscend heads.new.items) }
    ensures last { OnOk result ((id : List ℕ) →
        find (is_head_of id) heads.new.items ≡ find (is_head_of id) (reverse heads.old.items)) }
    ensures kept { OnOk result ((head : Head)
        → Contains heads.new.items head → Contains heads.old.items head) }
{
    // The last head of an id is its first one from here on.
    heads.reverse();
    sort(heads)?;
    keep_first(heads);
    Ok(())
}

/// The head of an id.
pub(crate) fn head_for<'a>(heads: &'a [Head], id: &Id) -> Option<&'a Head>
    requires { HeadsAscend heads.now }
    ensures { option_map (λ head. head.now) result ≡ find (is_head_of id.now) heads.now }
{
    let place = heads.binary_search_by(
        |head: &Head| -> Ordering
            ensures { result ≡ id_cmp head.now.id id.entry.now }
        { head.id.cmp(id) },
    );
    match place {
        Ok(at) => Some(&heads[at]),
        Err(_) => None,
    }
}

// Puts heads in the order of their ids. Those of one id stay in their order.
fn sort(heads: &mut Vec<Head>) -> Result<(), NoMemory>
    ensures sorted { OnOk result (IsSortedByKey (λ head. head.id) id_cmp heads.new.items) }
    ensures first { (id : List ℕ)
        → find (is_head_of id) heads.new.items ≡ find (is_head_of id) heads.old.items }
    ensures same { IsPermutation heads.old.items heads.new.items }
{
    heads.sort_by_key(|head| head.id)
}

// Keeps the first of several heads of one id that follow one another.
fn keep_first(heads: &mut Vec<Head>)
    requires { IsSortedByKey (λ head. head.id) id_cmp heads.old.items }
    ensures ascend { HeadsAscend heads.new.items }
    ensures first { (id : List ℕ)
        → find (is_head_of id) heads.new.items ≡ find (is_head_of id) heads.old.items }
    ensures kept { (head : Head) → Contains heads.new.items head → Contains heads.old.items head }
{
    heads.dedup_by_key(|head| head.id);
}
