//! The text of a fix category.
ghost use Rattle.std.specs.Prelude.{◌≡◌};
ghost use Rattle.std.specs.List.{list_all};
ghost use Rattle.mcs_reader.specs.Category.{is_category as is_category_text, is_category_byte as may_stand_in_category};

/// The most bytes that a fix category may have.
const LONGEST: usize = 64;

/// Whether a text is a fix category: 1 to 64 printable ASCII characters, of which none is a blank, an
/// apostrophe, a comma or a parenthesis (IBM z/OS SMP/E Reference, `++HOLD`, operand CATEGORY).
pub fn is_category(bytes: &[u8]) -> bool
    ensures { result ≡ is_category_text bytes.now }
{
    matches!(bytes.len(), 1..=LONGEST) && are_category_bytes(bytes)
}

fn are_category_bytes(bytes: &[u8]) -> bool
    ensures { result ≡ list_all may_stand_in_category bytes.now }
{
    bytes.iter().all(|b| is_category_byte(*b))
}

/// Whether a byte may stand in a fix category.
pub fn is_category_byte(b: u8) -> bool
    ensures { result ≡ may_stand_in_category b }
{
    matches!(b, b'!'..=b'~') && !matches!(b, b'\'' | b'(' | b')' | b',')
}
