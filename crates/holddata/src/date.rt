//! The date of a hold.
ghost use Rattle.std.specs.Prelude.{◌≡◌, ◌+◌, ◌<◌, true, IsTrue, IfSome, length};
ghost use Rattle.std.specs.Char.{is_ascii_digit};
ghost use Rattle.std.specs.List.{list_all};
ghost use Rattle.std.specs.Str.Parse.{digits_value};
ghost use Rattle.holddata.specs.Date.{is_date, date_with, date_of, date_digits};

use std::marker::Model;

/// The date of a hold, `yyddd` (IBM z/OS SMP/E Reference, `++HOLD`, operand DATE): five digits, of
/// which the last three are the day in the year, 001 to 366. A contract sees the number.
#[derive(Clone, Copy, Debug, PartialEq, Eq, PartialOrd, Ord, Hash)]
pub struct Date {
    number: u32,
}

impl Model for Date {
    ghost use Rattle.std.specs.Prelude.{ℕ, IsTrue};
    ghost use Rattle.holddata.specs.Date.{is_date};

    ghost Value = { ℕ };

    ghost view = { λ date. date.number };

    ghost invariant = { λ date. IsTrue (is_date date.number) };

    ghost inverse = { λ number. record { number = number } };
}

impl Date {
    /// The date with this number, as 12045, or `None` if no date has it.
    pub fn new(number: u32) -> Option<Self>
        ensures { result ≡ date_with number }
    {
        if number < 100_000 && (1..=366).contains(&(number % 1000)) {
            Some(Date { number })
        } else {
            None
        }
    }

    /// The date that the five digits write, or `None` for any other text.
    #[tactic(auto, using(crate::proofs::DateFacts::digits_again))]
    pub fn from_text(text: &[u8]) -> Option<Self>
        ensures date { result ≡ date_of text.now }
        ensures digits { IfSome result (λ date. date_digits date ≡ text.now) }
    {
        if text.len() == 5 && are_digits(text) {
            Date::new(number_of(text))
        } else {
            None
        }
    }

    /// The number, below 100,000.
    pub fn number(self) -> u32
        ensures value { result ≡ self }
        ensures allowed { IsTrue (is_date result) }
    {
        self.number
    }

    /// The five digits, as ASCII, zeros in front kept.
    pub fn digits(self) -> [u8; 5]
        ensures { result ≡ date_digits self }
    {
        let n = self.number;
        [
            digit(n / 10000),
            digit(n / 1000 % 10),
            digit(n / 100 % 10),
            digit(n / 10 % 10),
            digit(n % 10),
        ]
    }
}

fn are_digits(text: &[u8]) -> bool
    ensures { result ≡ list_all is_ascii_digit text.now }
{
    text.iter().all(|b| b.is_ascii_digit())
}

// The number that five digits write.
fn number_of(digits: &[u8]) -> u32
    requires five { length digits.now ≡ 5 }
    requires allowed { list_all is_ascii_digit digits.now ≡ true }
    ensures { result ≡ digits_value 10 digits.now }
{
    let mut number = 0;
    for digit in digits {
        number = number * 10 + u32::from(*digit - b'0');
    }
    number
}

fn digit(n: u32) -> u8
    requires { n < 10 }
    ensures { result ≡ 48 + n }
{
    b'0' + n as u8
}
