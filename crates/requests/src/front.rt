//! Reading as far as the end of a head, and as far as the end of a body.
ghost use Rattle.std.specs.Prelude.{◌≡◌, ℕ, ◌+◌, ◌<◌, ◌≤◌, true, false, length, take, Err, IfOk, IfErr, IfSome};
ghost use Rattle.std.specs.Io.KnownBytes.{IsAtEnd, Keeps, prepend_known};
ghost use Rattle.requests.specs.HeadEnd.{front_of, head_limit, EndsWithin, IsAtHand};
ghost use Rattle.requests.specs.Search.{ended, search};
ghost use Rattle.transfer.specs.Transfer.{IsGivenUp};

use crate::head_end::{Ending, find_end};
use std::io::Read;
use transfer::{Intake, TransferFault};

// The most bytes of a head, with the empty lines before it.
pub(crate) const HEAD_LIMIT: usize = 16_384;

// The most bytes of a body that one read asks for.
const CHUNK: usize = 65_536;

/// The beginning of a connection's bytes.
#[derive(Clone, Copy, Debug, PartialEq, Eq)]
pub enum Front {
    /// Empty lines, if any, and a head: so many bytes together.
    Head(usize),
    /// Empty lines, if any, and the end of the input.
    CleanEnd,
    /// A part of a head and the end of the input.
    EndInside,
    /// As many bytes as a head may have, without its end.
    TooLarge,
}

/// Reads as far as the end of a head, and no byte if that is at hand. The bytes stay in the intake.
///
/// # Errors
///
/// Those of [`Intake::read_more`], and none once a head's end has come. The bytes that came until then stay in
/// the intake.
pub fn read_front<R: Read>(
    intake: &mut Intake,
    reader: &mut R,
    retries: &mut u32,
) -> Result<Front, TransferFault>
    ensures front { IfOk result (λ front. IfSome (prepend_known intake.old (R.remaining reader.old))
        (λ bytes. front ≡ front_of head_limit bytes)) }
    ensures came { IfOk result (λ front. front ≡ front_of head_limit intake.new) }
    ensures none_came { IfErr result (λ fault. IsAtHand (front_of head_limit intake.new) → ⊥) }
    ensures within { IfOk result (λ front. EndsWithin front intake.new) }
    ensures at_hand { IsAtHand (front_of head_limit intake.old) →
        (intake.new ≡ intake.old) × (reader.new ≡ reader.old) }
    ensures no_further { (limit : ℕ) → 16384 ≤ limit → length intake.old ≤ limit → length intake.new ≤ limit }
    ensures kept { Keeps (prepend_known intake.old (R.remaining reader.old))
        (prepend_known intake.new (R.remaining reader.new)) }
    ensures given_up { IfErr result (λ fault. IsGivenUp fault retries.new) }
    ensures counted { retries.new ≤ retries.old }
{
    let mut ending = Ending::EmptyLines;
    let mut seen = 0;
    loop {
        let shown = within_limit(intake.bytes());
        match find_on(shown, seen, ending) {
            Ok(count) => return Ok(Front::Head(count)),
            Err(next) => ending = next,
        }
        seen = shown.len();
        if seen == HEAD_LIMIT {
            return Ok(Front::TooLarge);
        }
        if intake.read_more(reader, HEAD_LIMIT - seen, retries)? == 0 {
            return Ok(at_end(ending));
        }
    }
}

// As many of the bytes as a head may have.
pub(crate) fn within_limit(bytes: &[u8]) -> &[u8]
    ensures value { result.now ≡ take head_limit bytes.now }
    ensures short { length result.now ≤ 16384 }
    ensures part { length result.now ≤ length bytes.now }
    ensures most { (n : ℕ) → n ≤ length bytes.now → n ≤ 16384 → n ≤ length result.now }
    ensures all { length result.now < 16384 → result.now ≡ bytes.now }
{
    if bytes.len() < HEAD_LIMIT {
        return bytes;
    }
    let (shown, _) = bytes.split_at(HEAD_LIMIT);
    shown
}

// Goes on with a search in bytes of which the first were searched already.
pub(crate) fn find_on(bytes: &[u8], seen: usize, ending: Ending) -> Result<usize, Ending>
    requires within { seen ≤ length bytes.now }
    requires seen { search Ending.EmptyLines (take seen bytes.now) ≡ Err ending }
    ensures found { result ≡ search Ending.EmptyLines bytes.now }
    ensures part { IfOk result (λ count. count ≤ length bytes.now) }
{
    let (_, fresh) = bytes.split_at(seen);
    match find_end(ending, fresh) {
        Ok(count) => Ok(seen + count),
        Err(next) => Err(next),
    }
}

// The front of an input that ends before its head does.
fn at_end(ending: Ending) -> Front
    ensures { result ≡ ended ending }
{
    if ending == Ending::EmptyLines {
        Front::CleanEnd
    } else {
        Front::EndInside
    }
}

/// Reads until there are so many bytes, or the input ends. It reads no byte if they are at hand. The bytes stay
/// in the intake.
///
/// # Errors
///
/// Those of [`Intake::read_more`], and none once so many bytes have come. The bytes that came until then stay in
/// the intake.
pub fn read_whole<R: Read>(
    intake: &mut Intake,
    reader: &mut R,
    count: usize,
    retries: &mut u32,
) -> Result<bool, TransferFault>
    ensures whole { IfOk result (λ whole. whole ≡ true → count ≤ length intake.new) }
    ensures end { IfOk result (λ whole. whole ≡ false → IsAtEnd (R.remaining reader.new)) }
    ensures short { IfOk result (λ whole. whole ≡ false →
        (length intake.new < count) × IsAtEnd (R.remaining reader.new)) }
    ensures missing { IfErr result (λ fault. length intake.new < count) }
    ensures at_hand { count ≤ length intake.old → (intake.new ≡ intake.old) × (reader.new ≡ reader.old) }
    ensures no_further { length intake.old ≤ count → length intake.new ≤ count }
    ensures grown { take (length intake.old) intake.new ≡ intake.old }
    ensures kept { Keeps (prepend_known intake.old (R.remaining reader.old))
        (prepend_known intake.new (R.remaining reader.new)) }
    ensures given_up { IfErr result (λ fault. IsGivenUp fault retries.new) }
    ensures counted { retries.new ≤ retries.old }
{
    while intake.len() < count {
        let missing = count - intake.len();
        let most = if missing < CHUNK { missing } else { CHUNK };
        if intake.read_more(reader, most, retries)? == 0 {
            return Ok(false);
        }
    }
    Ok(true)
}
