//! The log's notes of requests.
ghost use Rattle.std.specs.Prelude.{◌≡◌, [], true};
ghost use Rattle.log_lines.specs.Words.{none};
ghost use Rattle.bureau_http.specs.Noted.{caller_word, lack_word};
ghost use Rattle.bureau_http.specs.Told.{IsToldAs, lack_told};
ghost use Rattle.requests.specs.NextRequest.{IsAt, parts_in, request_len};
ghost use Rattle.requests.specs.Order.{is_bare};
ghost use Rattle.requests.specs.Request.{path_of};

use crate::reply::Told;
use bureau_store::Caller;
use log_lines::{Note, Word};
use requests::Request;

/// The note of a whole request of this caller, if it is one's, with this answer.
pub(crate) fn note_of(
    told: &Told,
    caller: Option<Caller>,
    request: &Request,
    bytes: &[u8],
    closes: bool,
) -> Note
    requires { IsAt bytes.now request.now }
    ensures caller { result.caller ≡ caller_word caller }
    ensures told { IsToldAs (parts_in bytes.now request.now).method
        (path_of (parts_in bytes.now request.now).target)
        told.now (is_bare (parts_in bytes.now request.now)) closes result }
    ensures came { result.came ≡ request_len request.now }
{
    Note {
        caller: caller_word(caller),
        method: Word::of(request.method(bytes)),
        path: Word::of(request.path(bytes)),
        status: told.status(closes),
        came: request.len() as u64,
        went: told.len(request.is_bare(bytes), closes) as u64,
        lack: lack_word(told),
    }
}

/// The note of a head that is refused, of which so many bytes came.
pub(crate) fn note_refused(told: &Told, came: usize, is_bare: bool) -> Note
    ensures caller { result.caller ≡ none }
    ensures told { IsToldAs [] [] told.now is_bare true result }
    ensures came { result.came ≡ came }
{
    Note {
        caller: Word::none(),
        method: Word::none(),
        path: Word::none(),
        status: told.status(true),
        came: came as u64,
        went: told.len(is_bare, true) as u64,
        lack: lack_word(told),
    }
}

// The word for what a call lacked, if the answer says so.
fn lack_word(told: &Told) -> Option<Word>
    ensures { result ≡ lack_word (lack_told told.now) }
{
    match told.lack() {
        Some(lack) => Some(Word::of(lack.name().as_bytes())),
        None => None,
    }
}

// The word of the name of a caller, if there is one.
fn caller_word(caller: Option<Caller>) -> Word
    ensures { result ≡ caller_word caller }
{
    match caller {
        Some(caller) => Word::of(caller.name()),
        None => Word::none(),
    }
}
