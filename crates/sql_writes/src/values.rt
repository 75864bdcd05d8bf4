//! The parameters of a statement.
ghost use Rattle.std.specs.Prelude.{◌≡◌, ◌≤◌, pos};
ghost use Rattle.bureau_store.specs.Store.{greatest_number};
ghost use Rattle.sqlite_value.specs.Value.{owned};
ghost use Rattle.sqlite_value.specs.declared.value.Value.TheVariants.{Int};

use sqlite::types::ValueRef;

/// The number of a change.
pub(crate) fn number_of(number: u64) -> ValueRef<'static>
    requires { number ≤ greatest_number }
    ensures { owned result ≡ Int (pos number) }
{
    ValueRef::Int(number as i64)
}
