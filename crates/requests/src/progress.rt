//! Looking for the next request in bytes that come piece by piece.
ghost use Rattle.std.specs.Prelude.{◌≡◌, ◌≤◌, true, false, ℕ, List, length, IfNone, IfSome};
ghost use Rattle.requests.specs.NextRequest.{IsUnfinished};
ghost use Rattle.requests.specs.Progress.{AsksFor, IsRefused, Sees};

use crate::front::{HEAD_LIMIT, find_on, within_limit};
use crate::head_end::Ending;
use crate::order::decide;

/// A search for the next request, as far as the bytes of a connection were looked at.
///
/// It looks only at bytes that came since. So a head that comes byte by byte costs no more than one that comes at
/// once.
#[derive(Clone, Copy, Debug)]
pub struct Progress {
    // No head ends in so many bytes.
    pub(crate) seen: usize,
    // The bytes before the next one.
    pub(crate) ending: Ending,
    // The number of bytes of the request, once its head is there; 0 before.
    pub(crate) wanted: usize,
}

impl Progress {
    /// A search that has looked at nothing.
    pub fn new() -> Progress
        ensures { (bytes : List ℕ) → Sees bytes result }
    {
        Progress {
            seen: 0,
            ending: Ending::EmptyLines,
            wanted: 0,
        }
    }

    /// The number of bytes of the next request, once its head has come, and 0 before.
    pub fn wanted(&self) -> usize
        ensures { result ≡ self.now.wanted }
    {
        self.wanted
    }

    /// Whether these bytes hold neither a whole request nor a head that is refused. They have to begin with those
    /// of the call before.
    pub fn is_short(&mut self, bytes: &[u8]) -> bool
        requires { Sees bytes.now self.old }
        ensures sees { Sees bytes.now self.new }
        ensures short { result ≡ true → IsUnfinished bytes.now }
        ensures whole { result ≡ false → IsUnfinished bytes.now → ⊥ }
    {
        if self.wanted > 0 {
            return bytes.len() < self.wanted;
        }
        let shown = within_limit(bytes);
        match find_on(shown, self.seen, self.ending) {
            Ok(head_len) => match request_len(bytes, head_len) {
                Some(len) => {
                    self.wanted = len;
                    bytes.len() < len
                }
                None => false,
            },
            Err(ending) => {
                self.seen = shown.len();
                self.ending = ending;
                shown.len() < HEAD_LIMIT
            }
        }
    }
}

// The number of bytes of the request whose head are the first so many, or `None` if it is refused.
fn request_len(bytes: &[u8], head_len: usize) -> Option<usize>
    requires within { head_len ≤ length bytes.now }
    requires short { head_len ≤ 16384 }
    ensures some { IfSome result (AsksFor bytes.now head_len) }
    ensures none { IfNone result (IsRefused bytes.now head_len) }
{
    let (head, _) = bytes.split_at(head_len);
    match decide(head) {
        Ok((_, body_len)) => Some(head_len + body_len as usize),
        Err(_) => None,
    }
}
