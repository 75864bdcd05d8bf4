//! The tokens that are known to be callers' own.

use log_lines::Note;
use std::alloc::Global;
use std::collections::BTreeSet;

/// The tokens of callers, as far as the desk has answered requests of theirs. So they are no more than the callers.
#[derive(Drop)]
pub(crate) struct Known {
    tokens: BTreeSet<Vec<u8>>,
}

impl Known {
    /// None is known.
    pub(crate) fn new(alloc: Global) -> Known {
        Known {
            tokens: BTreeSet::new(alloc),
        }
    }

    /// By which token a caller has its turns: this one if it is known, and else that of all whose tokens aren't, which has
    /// no byte.
    pub(crate) fn token<'a>(&self, token: &'a [u8]) -> &'a [u8] {
        if self.tokens.contains(token) {
            token
        } else {
            &[]
        }
    }

    /// A request with this token was answered, and this was noted of it. Without memory the token isn't known yet.
    pub(crate) fn learn(&mut self, token: Option<Vec<u8>>, note: &Note) {
        let Some(token) = token else {
            return;
        };
        if note.caller.as_slice() != b"-".as_slice() {
            let _ = self.tokens.insert(token);
        }
    }
}
