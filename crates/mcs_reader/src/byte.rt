//! The role of each byte in a statement.
ghost use Rattle.std.specs.Prelude.{◌≡◌};
ghost use Rattle.mcs_reader.specs.Byte.{role_of as role_of_byte, is_blank, is_gap, is_name_byte};
ghost use Rattle.mcs_reader.specs.Pieces.{is_value_byte};

/// The role of a byte in a statement (SMP/E Reference, "MCS coding rules").
#[derive(Clone, Copy, Debug, PartialEq, Eq)]
pub(crate) enum ByteRole {
    /// A blank, a tab, a comma or a line's end: it stands between names, values and lists.
    Gap,
    /// `/` and `*`, with which a comment begins.
    Comment,
    /// A letter, a digit, `@`, `#` or `$`.
    Name,
    /// `(`
    Open,
    /// `)`
    Close,
    /// `.`
    Period,
    /// Any other byte. Only a list has them, in its values.
    Other,
}

/// The role of a byte if no comment begins.
#[inline]
#[tactic(auto, unfolding(crate::specs::Byte::role_of))]
pub(crate) fn role_of(b: u8) -> ByteRole
    ensures { result ≡ role_of_byte b }
{
    match b {
        b' ' | b'\t' | b',' | b'\n' => ByteRole::Gap,
        b'A'..=b'Z' | b'a'..=b'z' | b'0'..=b'9' | b'@' | b'#' | b'$' => ByteRole::Name,
        b'(' => ByteRole::Open,
        b')' => ByteRole::Close,
        b'.' => ByteRole::Period,
        _ => ByteRole::Other,
    }
}

#[inline]
pub(crate) fn is_blank_byte(b: u8) -> bool
    ensures { result ≡ is_blank b }
{
    matches!(b, b' ' | b'\t')
}

#[inline]
pub(crate) fn stands_in_name(b: u8) -> bool
    ensures { result ≡ is_name_byte b }
{
    b.is_ascii_alphanumeric() || matches!(b, b'@' | b'#' | b'$')
}

#[inline]
fn stands_between(b: u8) -> bool
    ensures { result ≡ is_gap b }
{
    matches!(b, b' ' | b'\t' | b',' | b'\n')
}

#[inline]
#[tactic(auto, using(crate::proofs::RoleFacts::value_byte_by_exclusion))]
pub(crate) fn stands_in_value(b: u8) -> bool
    ensures { result ≡ is_value_byte b }
{
    !(stands_between(b) || b == b'(' || b == b')')
}
