//! The date of a hold.
ghost use Rattle.std.specs.Prelude.{◌≡◌, ◌≤◌, IfOk, OnOk, ◌++◌, length, string_bytes};
ghost use Rattle.serde_json.specs.View.{view};
ghost use Rattle.report_json.specs.Dates as Spec;

use faults::NoMemory;
use holddata::Date;
use itoa::Buffer;
use serde_json::Value;
use std::alloc::Global;

/// The date of a hold, `YYYY-MM-DD`, or null if it has none, or one that no calendar has.
pub(crate) fn date_value(alloc: Global, date: Option<Date>) -> Result<Value, NoMemory>
    ensures { IfOk result (λ value. view value ≡ Spec.date_data date) }
{
    let Some(date) = date else {
        return Ok(Value::Null);
    };
    let number = date.number();
    let yy = number / 1000;
    day_value(
        alloc,
        full_year(yy),
        day_in(&month_lengths(yy % 4 == 0), number % 1000),
    )
}

// The year of its last two digits, from 1970 to 2069.
fn full_year(yy: u32) -> u32
    requires { yy ≤ 99 }
    ensures { result ≡ Spec.full_year yy }
{
    if yy < 70 { 2000 + yy } else { 1900 + yy }
}

// The number of days of each month.
fn month_lengths(leap: bool) -> [u32; 12]
    ensures { result ≡ Spec.month_lengths leap }
{
    let february = if leap { 29 } else { 28 };
    [31, february, 31, 30, 31, 30, 31, 31, 30, 31, 30, 31]
}

// The month, and the day in it, of the day in the year.
fn day_in(lengths: &[u32], day: u32) -> Option<(u32, u32)>
    requires { length lengths.now ≤ 12 }
    ensures day { result ≡ Spec.day_in lengths.now 1 day }
    ensures law { Spec.DaysAreFound }
{
    let mut month = 1;
    let mut left = day;
    for days in lengths {
        if left <= *days {
            return Some((month, left));
        }
        left -= *days;
        month += 1;
    }
    None
}

fn day_value(alloc: Global, year: u32, day: Option<(u32, u32)>) -> Result<Value, NoMemory>
    ensures { IfOk result (λ value. view value ≡ Spec.day_data year day) }
{
    match day {
        Some(day) => Ok(Value::String(day_text(alloc, year, day)?)),
        None => Ok(Value::Null),
    }
}

fn day_text(alloc: Global, year: u32, day: (u32, u32)) -> Result<String, NoMemory>
    ensures { IfOk result (λ text. string_bytes text ≡ Spec.day_text year day) }
{
    let mut text = String::new(alloc);
    text.push_str(Buffer::new().format(year))?;
    text.push_str("-")?;
    push_two_digits(&mut text, day.0)?;
    text.push_str("-")?;
    push_two_digits(&mut text, day.1)?;
    Ok(text)
}

fn push_two_digits(text: &mut String, n: u32) -> Result<(), NoMemory>
    ensures { OnOk result (string_bytes text.new ≡ string_bytes text.old ++ Spec.two_digits n) }
{
    if n < 10 {
        text.push_str("0")?;
    }
    text.push_str(Buffer::new().format(n))
}
