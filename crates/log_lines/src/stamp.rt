//! The word of a time.
ghost use Rattle.std.specs.Prelude.{◌≡◌, ◌<◌};
ghost use Rattle.std.specs.Duration.{as_nanos};
ghost use Rattle.httpdate.specs.Text.{two_digits};
ghost use Rattle.log_lines.specs.Stamps.{IsStamp, stamp_text};

use crate::month::month_named;
use crate::word::Word;
use httpdate::HttpDate;
use std::time::Duration;

/// The word of the time so long after 1970 began, in UTC, with milliseconds: `1994-11-06T08:49:37.123Z`. From the
/// year 10000 on it is `-`.
pub fn time_word(since_1970: Duration) -> Word
    ensures { IsStamp (as_nanos since_1970) result }
{
    match HttpDate::from_unix_secs(since_1970.as_secs()) {
        Ok(date) => stamp_at(&date, since_1970.subsec_millis()),
        Err(_) => Word::none(),
    }
}

// The word of a second, and of some milliseconds of it.
fn stamp_at(date: &HttpDate, millis: u32) -> Word
    requires { millis < 1000 }
    ensures { result ≡ stamp_text date.now.parts millis }
{
    // `Sun, 06 Nov 1994 08:49:37 GMT`
    let text = date.to_bytes();
    let month = two_digits(month_named(&text[8..11]));
    let tenth = two_digits((millis / 100) as u8);
    let last = two_digits((millis % 100) as u8);
    Word::printed(&[
        text[12], text[13], text[14], text[15], b'-', month[0], month[1], b'-', text[5], text[6],
        b'T', text[17], text[18], b':', text[20], text[21], b':', text[23], text[24], b'.',
        tenth[1], last[0], last[1], b'Z',
    ])
}

// A number below 100, in two digits.
fn two_digits(number: u8) -> [u8; 2]
    requires { number < 100 }
    ensures { result ≡ two_digits number }
{
    [b'0' + number / 10, b'0' + number % 10]
}
