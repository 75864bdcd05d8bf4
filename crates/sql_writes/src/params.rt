//! The parameters of a text that inserts: a key, and then things one after the other.
ghost use Rattle.std.specs.Prelude.{◌≡◌, ◌≤◌, ◌+◌, ◌*◌, ◌++◌, flat_map, length, take};
ghost use Rattle.std.specs.List.{AllByRecursion};
ghost use Rattle.sqlite.specs.Values.{bound};

use crate::table::Several;
use sql_rows::Key;
use sqlite::types::ValueRef;

/// Puts these values next.
fn place<'a>(params: &mut [ValueRef<'a>; 40], at: usize, values: &[ValueRef<'a>])
    requires room { at + length values.now ≤ 40 }
    requires long { length params.now ≡ 40 }
    ensures long { length params.new ≡ 40 }
    ensures placed { bound (take (at + length values.now) params.new)
        ≡ bound (take at params.old) ++ bound values.now }
{
    for i in 0..values.len() {
        params[at + i] = values[i];
    }
}

/// The number of parameters for a key and so many things.
pub(crate) fn count_of<K: Key, T: Several<K>>(items: &[T::Item]) -> usize
    requires { T.counts (length items.now) }
    ensures count { result ≡ K.parameters + T.own * length items.now }
    ensures few { result ≤ 40 }
{
    K::count() + <T as Several<K>>::width() * items.len()
}

/// A key and things as parameters.
pub(crate) fn params_of<'a, K: Key, T: Several<K>>(
    key: &'a K,
    items: &'a [T::Item],
) -> [ValueRef<'a>; 40]
    requires { T.counts (length items.now) }
    ensures bound { bound (take (K.parameters + T.own * length items.now) result)
        ≡ K.values key.now ++ flat_map T.values_of items.now }
    ensures key { K.is_fit key.now }
    ensures fit { AllByRecursion T.is_fit items.now }
{
    let mut params = [ValueRef::Null; 40];
    let first = key.params();
    place(&mut params, 0, &first[..K::count()]);
    let mut next = K::count();
    for item in items {
        let columns = <T as Several<K>>::columns(item);
        place(&mut params, next, &columns[..<T as Several<K>>::width()]);
        next += <T as Several<K>>::width();
    }
    params
}
