//! The names of SYSMODs, FMIDs, reasons, classes, zones and callers.
ghost use Rattle.std.specs.Prelude.{◌≡◌, ◌==◌, ◌↔◌, not, refl, Some, IsAscii, IsTrue, IsSome, IfSome};
ghost use Rattle.std.specs.Ordering.{nat_cmp};
ghost use Rattle.std.specs.Cmp.Lexicographic.{slice_cmp, nat_list_cmp_total, texts_po, texts_ties};
ghost use Rattle.std.specs.List.{list_all, prefix_len};
ghost use Rattle.mcs_reader.specs.Id.{id_of, is_id_byte, is_id_text, number, padded, text_of};

use std::cmp::Ordering;
use std::marker::Model;
use std::{fmt, str};

/// The name of a SYSMOD, an FMID, a reason, a class, a zone or a caller: 1 to 7 of the characters
/// `A` to `Z`, `0` to `9`, `@`, `#` and `$`.
///
/// Ids are ordered by the ASCII codes of their texts, padded with blanks to seven characters.
/// A contract sees an id as these seven bytes.
#[derive(Clone, Copy, Debug, PartialEq, Eq, Hash)]
pub struct Id {
    bytes: [u8; 7],
}

impl Model for Id {
    ghost use Rattle.std.specs.Prelude.{List, ℕ};
    ghost use Rattle.mcs_reader.specs.Id.{IsId};

    ghost Value = { List ℕ };

    ghost view = { λ id. id.bytes };

    ghost invariant = { λ id. IsId id.bytes };

    ghost inverse = { λ bytes. record { bytes = bytes } };
}

impl Id {
    /// The id with this text, or `None` if the bytes are no id's text.
    pub fn new(bytes: &[u8]) -> Option<Self>
        ensures value { result ≡ id_of bytes.now }
        ensures allowed { IsSome result ↔ IsTrue (is_id_text bytes.now) }
        ensures text { IfSome result (λ id. text_of id ≡ bytes.now) }
    {
        if !is_text(bytes) {
            return None;
        }
        let mut padded = [b' '; 7];
        padded[..bytes.len()].copy_from_slice(bytes);
        Some(Id { bytes: padded })
    }

    /// The text, which is 1 to 7 characters long and has no blanks.
    #[tactic(auto, using(crate::proofs::IdFacts::ascii_id_text))]
    pub fn text(&self) -> &str
        ensures value { result.now ≡ text_of self.now }
        ensures allowed { IsTrue (is_id_text result.now) }
        ensures whole { self.now ≡ padded result.now }
    {
        ascii_str(self.as_bytes())
    }

    /// The text as ASCII.
    #[tactic(auto, using(crate::proofs::IdFacts::text_begins, crate::proofs::IdFacts::text_fits))]
    pub fn as_bytes(&self) -> &[u8]
        ensures value { result.now ≡ text_of self.now }
        ensures allowed { IsTrue (is_id_text result.now) }
        ensures whole { self.now ≡ padded result.now }
    {
        let (text, _) = self.bytes.split_at(text_len(&self.bytes));
        text
    }
}

impl PartialOrd for Id {
    ghost partial_cmp = { λ a b. Some (slice_cmp nat_cmp a b) };

    ghost laws = { texts_po };

    fn partial_cmp(&self, other: &Id) -> Option<Ordering> {
        Some(self.cmp(other))
    }
}

impl Ord for Id {
    ghost cmp = { slice_cmp nat_cmp };

    ghost total = { nat_list_cmp_total };

    ghost matches_partial_cmp = { λ a b. refl };

    ghost matches_eq = { texts_ties };

    // One comparison of two numbers, in place of one for each byte.
    #[inline]
    fn cmp(&self, other: &Id) -> Ordering {
        number_of(&self.bytes).cmp(&number_of(&other.bytes))
    }
}

// The number whose digits to the base 256 the bytes are.
#[inline]
fn number_of(bytes: &[u8; 7]) -> u64
    ensures { result ≡ number 0 bytes.now }
{
    let high = u32::from_be_bytes([bytes[0], bytes[1], bytes[2], bytes[3]]);
    let middle = u16::from_be_bytes([bytes[4], bytes[5]]);
    u64::from(high) * 0x100_0000 + u64::from(middle) * 0x100 + u64::from(bytes[6])
}

impl fmt::Display for Id {
    ghost use Rattle.std.specs.Prelude.{Some};
    ghost use Rattle.std.specs.Fmt.{styled_text};
    ghost use Rattle.mcs_reader.specs.Id.{text_of};

    ghost output = { λ id. Some (text_of id) };

    ghost styled_output = { λ id spec. Some (styled_text spec (text_of id)) };

    fn fmt<W: fmt::Write>(&self, f: &mut fmt::Formatter<W>) -> fmt::Result {
        f.pad(self.text())
    }
}

// Whether an id may have this text.
#[tactic(auto, using(crate::proofs::IdFacts::id_text_in_range, crate::proofs::IdFacts::id_text_out_of_range))]
fn is_text(bytes: &[u8]) -> bool
    ensures { result ≡ is_id_text bytes.now }
{
    matches!(bytes.len(), 1..=7) && are_text_bytes(bytes)
}

fn are_text_bytes(bytes: &[u8]) -> bool
    ensures { result ≡ list_all is_id_byte bytes.now }
{
    bytes.iter().all(|b| is_text_byte(*b))
}

fn is_text_byte(b: u8) -> bool
    ensures { result ≡ is_id_byte b }
{
    matches!(b, b'A'..=b'Z' | b'0'..=b'9' | b'@' | b'#' | b'$')
}

// The length of the text, up to the blanks.
fn text_len(bytes: &[u8]) -> usize
    ensures { result ≡ prefix_len (λ b. not (b == 32)) bytes.now }
{
    bytes.iter().take_while(|b| **b != b' ').count()
}

fn ascii_str(bytes: &[u8]) -> &str
    requires { IsAscii bytes.now }
    ensures { result.now ≡ bytes.now }
{
    match str::from_utf8(bytes) {
        Ok(text) => text,
        Err(_) => unreachable!(),
    }
}
