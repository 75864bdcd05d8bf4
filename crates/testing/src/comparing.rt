//! Comparisons, in place of the macros of `std`.

ghost use Rattle.std.specs.Prelude.{◌≡◌, true, OnOk, OnErr, false};

use std::fmt::{Debug, Display};
use std::test::Fail;

/// Compares `got` with `wanted`.
///
/// # Errors
///
/// A failure that says both, if they differ.
pub fn assert_equal<T: PartialEq + Debug + Drop>(got: T, wanted: T) -> Result<(), Fail>
    ensures equal { OnOk result (T.eq got wanted ≡ true) }
    ensures told { OnErr result (T.eq got wanted ≡ false) }
{
    assert_so(
        got == wanted,
        format_args!("{got:?} in place of {wanted:?}"),
    )
}

/// Compares `got` with `wanted`, in a case such as the row of a table.
///
/// # Errors
///
/// A failure that says the case and both, if they differ.
pub fn assert_equal_at<T: PartialEq + Debug + Drop, P: Debug + Drop>(
    case: P,
    got: T,
    wanted: T,
) -> Result<(), Fail>
    ensures equal { OnOk result (T.eq got wanted ≡ true) }
    ensures told { OnErr result (T.eq got wanted ≡ false) }
{
    assert_so(
        got == wanted,
        format_args!("{case:?}: {got:?} in place of {wanted:?}"),
    )
}

// Nothing if it is so; else a failure that says this.
fn assert_so<D: Display + Drop>(is_so: bool, said: D) -> Result<(), Fail>
    ensures so { OnOk result (is_so ≡ true) }
    ensures told { OnErr result (is_so ≡ false) }
{
    if is_so { Ok(()) } else { Err(Fail::new(said)) }
}
