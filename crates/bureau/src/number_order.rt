//! A change's number beside that of the caller's last one.
ghost use Rattle.std.specs.Prelude.{◌≡◌, ◌<◌, ◌≤◌, IfOk};
ghost use Rattle.bureau.specs.Outcome.{Outcome, in_turn};
ghost use Rattle.bureau.specs.Outcomes.{IsInTurn};
ghost use Rattle.bureau.specs.NumberOrder.{outcome_in};
ghost use Rattle.bureau_store.specs.Store.{greatest_number};
ghost use Rattle.bureau_store.specs.Tables.{LastChange};

use crate::{NoMemory, Reply};
use std::alloc::Global;

/// The greatest number of a change.
const GREATEST_NUMBER: u64 = 9_223_372_036_854_775_807;

/// The place of a change's number in the order of its caller's changes.
#[derive(Clone, Copy)]
pub(crate) enum NumberOrder {
    /// It is the caller's next one.
    Next,
    /// It came already, as the caller's last one.
    Again,
    /// It came before the caller's last one.
    Stale,
    /// Some number is left out before it.
    Gap,
    /// It has no number, or one that no change has.
    NoNumber,
}

/// Compares this number of a change with that of the caller's last change.
pub(crate) fn order_of_number(number: Option<u64>, last: u64) -> NumberOrder
    ensures order { (kept : LastChange) (change : Outcome) →
        kept.number ≡ last → in_turn kept number change ≡ outcome_in result kept change }
    ensures next { result ≡ NumberOrder.Next → last < 9223372036854775807 }
{
    let Some(number) = number else {
        return NumberOrder::NoNumber;
    };
    if number == 0 || number > GREATEST_NUMBER {
        return NumberOrder::NoNumber;
    }
    if number == last {
        return NumberOrder::Again;
    }
    if number - 1 == last {
        return NumberOrder::Next;
    }
    if number < last {
        NumberOrder::Stale
    } else {
        NumberOrder::Gap
    }
}

/// The number of a change that comes in its turn after the caller's last one, for which this reply is kept; or
/// the answer to one that doesn't.
pub(crate) fn number_in_turn(
    alloc: Global,
    number: Option<u64>,
    last: u64,
    reply: Vec<u8>,
) -> Result<Result<u64, Reply>, NoMemory>
    ensures order { IfOk result (IsInTurn (record { number = last; reply = reply.items }) number) }
    ensures bound { IfOk result (λ found. IfOk found (λ next. next ≤ greatest_number)) }
{
    match order_of_number(number, last) {
        NumberOrder::Next => Ok(Ok(last + 1)),
        NumberOrder::Again => Ok(Err(Reply::text(reply))),
        NumberOrder::Stale => Ok(Err(Reply::plain(alloc, 409, b"STALE\n")?)),
        NumberOrder::Gap => Ok(Err(Reply::gap(alloc, last)?)),
        NumberOrder::NoNumber => Ok(Err(Reply::plain(alloc, 400, b"BAD NUMBER\n")?)),
    }
}
