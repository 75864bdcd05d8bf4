//! Texts of a head: cut at a byte, trimmed, listed, and read as numbers.
ghost use Rattle.std.specs.Prelude.{◌≡◌, ◌==◌, ◌≤◌, ◌<◌, true};
ghost use Rattle.std.specs.Char.{is_ascii_digit};
ghost use Rattle.std.specs.List.{list_all, prefix_len, suffix_len};
ghost use Rattle.std.specs.Str.Parse.{digits_value};
ghost use Rattle.requests.specs.Text as Spec;

// Whether a text begins with this byte.
pub(crate) fn begins_with(text: &[u8], byte: u8) -> bool
    ensures { result ≡ Spec.begins_with byte text.now }
{
    match text.split_first() {
        Some((first, _)) => *first == byte,
        None => false,
    }
}

// The text before the first of these bytes, and the text after it.
#[tactic(auto, using(crate::proofs::TextFacts::cut_fits))]
pub(crate) fn cut(text: &[u8], byte: u8) -> (&[u8], &[u8])
    ensures before { result.0.now ≡ Spec.before byte text.now }
    ensures after { result.1.now ≡ Spec.after byte text.now }
{
    let count = before_len(text, byte);
    let (before, rest) = text.split_at(count);
    match rest.split_first() {
        Some((_, after)) => (before, after),
        None => (before, rest),
    }
}

fn before_len(text: &[u8], byte: u8) -> usize
    ensures { result ≡ Spec.before_len byte text.now }
{
    text.iter().take_while(|b| **b != byte).count()
}

// Whether a comma list has this word, without regard to ASCII case.
pub(crate) fn has_word(list: &[u8], word: &[u8]) -> bool
    ensures { result ≡ Spec.has_word word.now list.now }
{
    let mut rest = list;
    loop {
        let (element, after) = cut(rest, b',');
        if is_word(element, word) {
            return true;
        }
        if element.len() == rest.len() {
            return false;
        }
        rest = after;
    }
}

fn is_word(element: &[u8], word: &[u8]) -> bool
    ensures { result ≡ Spec.is_word word.now element.now }
{
    trimmed(element).eq_ignore_ascii_case(word)
}

fn trimmed(text: &[u8]) -> &[u8]
    ensures { result.now ≡ Spec.trimmed text.now }
{
    trim_end(trim_start(text))
}

#[tactic(auto, using(crate::proofs::TextFacts::leading_fits))]
fn trim_start(text: &[u8]) -> &[u8]
    ensures { result.now ≡ Spec.trim_start text.now }
{
    let (_, rest) = text.split_at(leading_blanks(text));
    rest
}

#[tactic(auto, using(crate::proofs::TextFacts::trailing_fits))]
fn trim_end(text: &[u8]) -> &[u8]
    ensures { result.now ≡ Spec.trim_end text.now }
{
    let (rest, _) = text.split_at(text.len() - trailing_blanks(text));
    rest
}

fn leading_blanks(text: &[u8]) -> usize
    ensures { result ≡ prefix_len Spec.is_blank text.now }
{
    text.iter().take_while(|b| is_blank(**b)).count()
}

fn trailing_blanks(text: &[u8]) -> usize
    ensures { result ≡ suffix_len Spec.is_blank text.now }
{
    text.iter().rev().take_while(|b| is_blank(**b)).count()
}

fn is_blank(b: u8) -> bool
    ensures { result ≡ Spec.is_blank b }
{
    b == b' ' || b == b'\t'
}

// Whether a text is one or more digits.
pub(crate) fn is_number(text: &[u8]) -> bool
    ensures { result ≡ Spec.is_number text.now }
{
    !text.is_empty() && are_digits(text)
}

fn are_digits(text: &[u8]) -> bool
    ensures { result ≡ list_all is_ascii_digit text.now }
{
    text.iter().all(|b| b.is_ascii_digit())
}

// The number that digits write, or `most` if it is over that.
pub(crate) fn number_up_to(digits: &[u8], most: u64) -> u64
    requires { list_all is_ascii_digit digits.now ≡ true }
    ensures most { result ≤ most }
    ensures value { digits_value 10 digits.now ≤ most → result ≡ digits_value 10 digits.now }
    ensures over { most < digits_value 10 digits.now → result ≡ most }
{
    let mut number = 0u64;
    for digit in digits {
        let next = number
            .saturating_mul(10)
            .saturating_add(u64::from(*digit - b'0'));
        number = if next < most { next } else { most };
    }
    number
}
