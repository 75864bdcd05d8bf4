//! The words of a line.
ghost use Rattle.std.specs.Prelude.{◌≡◌, ◌≤◌, decimal, length, take};
ghost use Rattle.log_lines.specs.Words.{AreShown, none, shown, word_of};

use arrayvec::ArrayVec;
use itoa::Buffer;
use std::marker::Model;

// The most bytes of a word.
const MOST: usize = 64;

/// A word of a line: 1 to 64 printed characters of ASCII, none of which is a blank.
///
/// A contract sees it as its bytes.
#[derive(Drop)]
pub struct Word {
    bytes: ArrayVec<u8, 64>,
}

impl Model for Word {
    ghost use Rattle.std.specs.Prelude.{List, ℕ};
    ghost use Rattle.log_lines.specs.Words.{IsWord};

    ghost Value = { List ℕ };

    ghost view = { λ word. word.bytes.items };

    ghost invariant = { λ word. IsWord word.bytes.items };
}

impl Word {
    /// The word for no text: `-`.
    pub fn none() -> Word
        ensures { result ≡ none }
    {
        let mut bytes = ArrayVec::new();
        bytes.push(b'-');
        Word { bytes }
    }

    /// A text as a line shows it: its first 64 bytes, with a question mark for each that is a blank or no printed
    /// character of ASCII; and `-` if the text is empty.
    pub fn of(text: &[u8]) -> Word
        ensures { result ≡ word_of text.now }
    {
        let front = first(text);
        if front.is_empty() {
            return Word::none();
        }
        let mut bytes = ArrayVec::new();
        for byte in front {
            bytes.push(shown(*byte));
        }
        Word { bytes }
    }

    /// A number, in decimal.
    pub fn number(number: u64) -> Word
        ensures { result ≡ decimal number }
    {
        let mut digits = Buffer::new();
        Word::printed(digits.format(number).as_bytes())
    }

    // A text that is a word as it stands.
    pub(crate) fn printed(text: &[u8]) -> Word
        requires some { 1 ≤ length text.now }
        requires short { length text.now ≤ 64 }
        requires shown { AreShown text.now }
        ensures { result ≡ text.now }
    {
        let mut bytes = ArrayVec::new();
        match bytes.try_extend_from_slice(text) {
            Ok(()) => {}
            Err(_) => unreachable!(),
        }
        Word { bytes }
    }

    /// Its bytes.
    pub fn as_slice(&self) -> &[u8]
        ensures bytes { result.now ≡ self.now }
        ensures short { length result.now ≤ 64 }
        ensures shown { AreShown result.now }
    {
        self.bytes.as_slice()
    }
}

// The first bytes of a text, as many as a word may have.
fn first(text: &[u8]) -> &[u8]
    ensures first { result.now ≡ take 64 text.now }
    ensures short { length result.now ≤ 64 }
{
    if text.len() <= MOST {
        return text;
    }
    let (first, _) = text.split_at(MOST);
    first
}

// A byte as a line shows it.
fn shown(byte: u8) -> u8
    ensures { result ≡ shown byte }
{
    if byte.is_ascii_graphic() { byte } else { b'?' }
}
