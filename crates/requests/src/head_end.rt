//! The end of a request's head.
ghost use Rattle.std.specs.Prelude.{◌≡◌, ◌≤◌, length, IfOk};
ghost use Rattle.requests.specs.HeadEnd as HeadEnd;
ghost use Rattle.requests.specs.Search.{search, after};

use crate::text::begins_with;

/// The bytes before the next one of a connection, as far as the end of a head depends on them.
#[derive(Clone, Copy, Debug, PartialEq, Eq)]
pub(crate) enum Ending {
    /// Empty lines, or nothing.
    EmptyLines,
    /// Empty lines and a CR.
    EmptyLinesReturn,
    /// A part of a line.
    Line,
    /// The LF that ends a line.
    Feed,
    /// The LF that ends a line, and a CR.
    FeedReturn,
}

impl Ending {
    // The ending after a byte, or `None` if the head ends with it.
    fn after(self, byte: u8) -> Option<Ending>
        ensures { result ≡ after self byte }
    {
        match (self, byte) {
            (Ending::Feed | Ending::FeedReturn, b'\n') => None,
            (Ending::EmptyLines | Ending::EmptyLinesReturn, b'\n') => Some(Ending::EmptyLines),
            (Ending::Line, b'\n') => Some(Ending::Feed),
            (Ending::EmptyLines, b'\r') => Some(Ending::EmptyLinesReturn),
            (Ending::Feed, b'\r') => Some(Ending::FeedReturn),
            _ => Some(Ending::Line),
        }
    }
}

/// The number of bytes up to the end of a head, or else the ending after them all.
pub(crate) fn find_end(start: Ending, bytes: &[u8]) -> Result<usize, Ending>
    ensures found { result ≡ search start bytes.now }
    ensures within { IfOk result (λ count. count ≤ length bytes.now) }
{
    let mut ending = start;
    for (i, b) in bytes.iter().enumerate() {
        match ending.after(*b) {
            Some(next) => ending = next,
            None => return Ok(i + 1),
        }
    }
    Err(ending)
}

// The number of lines that a head has between its first and its blank one.
pub(crate) fn lines_between(bytes: &[u8]) -> usize
    ensures { result ≡ HeadEnd.lines_between bytes.now }
{
    let (_, head) = bytes.split_at(empty_lines_len(bytes));
    feeds(head).saturating_sub(2)
}

fn feeds(bytes: &[u8]) -> usize
    ensures { result ≡ HeadEnd.feeds bytes.now }
{
    bytes.iter().filter(|b| **b == b'\n').count()
}

// The number of bytes of the empty lines at the beginning.
fn empty_lines_len(bytes: &[u8]) -> usize
    ensures value { result ≡ HeadEnd.empty_lines_len bytes.now }
    ensures within { result ≤ length bytes.now }
{
    let mut len = 0;
    let mut rest = bytes;
    while let Some((first, after)) = rest.split_first() {
        if !is_in_empty_line(*first, after) {
            return len;
        }
        len += 1;
        rest = after;
    }
    len
}

// Whether a byte is one of an empty line, with these bytes after it.
fn is_in_empty_line(byte: u8, after: &[u8]) -> bool
    ensures { result ≡ HeadEnd.is_in_empty_line byte after.now }
{
    byte == b'\n' || (byte == b'\r' && begins_with(after, b'\n'))
}
