//! A desk over any store: its answers, and whether they are right.
ghost use Rattle.std.specs.Prelude.{IfOk};
ghost use Rattle.bureau_store.specs.Caller.{IsProper};

use super::script::{ALPHA, Asked, BETA, Checked, PUBLISHER, Told};
use bureau::{Bureau, Reply};
use bureau_store::{Caller, CallerRow, ListStore, Store};
use std::alloc::Global;
use verdicts::Judge;

/// The callers' tokens. They are looked up elsewhere than at the desk, so that a closed desk can be asked too.
pub(crate) struct Known {
    // The callers in a store that has no device.
    lists: ListStore,
}

// By hand, so that a function that owns one drops it by one call.
impl Drop for Known {
    fn drop(self) {
        let Known { lists: _ } = self;
    }
}

/// A store that has these callers and no device.
pub(crate) fn in_lists(alloc: Global, callers: &[CallerRow]) -> Checked<ListStore> {
    ListStore::new(alloc, callers).ok().ok_or("memory")
}

impl Known {
    /// Knows the tokens of these callers.
    pub(crate) fn new(alloc: Global, callers: &[CallerRow]) -> Checked<Known> {
        let lists = in_lists(alloc, callers)?;
        Ok(Known { lists })
    }

    // The caller with this token.
    fn caller(&mut self, token: &[u8]) -> Checked<Caller>
        ensures { IfOk result IsProper }
    {
        match self.lists.caller_of(token) {
            Ok(Some(caller)) => Ok(caller),
            _ => Err("a caller"),
        }
    }
}

fn told<S: Store, J: Judge<S>>(
    known: &mut Known,
    bureau: &mut Bureau<S, J>,
    asked: &Asked,
) -> Checked<Reply> {
    let (token, ask, place) = asked;
    let caller = known.caller(token)?;
    match ask.call_in(*place) {
        Some(call) => Ok(bureau.answer(&caller, &call)),
        None => Err("an id"),
    }
}

/// Puts a value at the end of a list.
pub(crate) fn push<T: Drop>(list: &mut Vec<T>, value: T) -> Checked<()> {
    list.push(value).ok().ok_or("memory")
}

fn put_told<S: Store, J: Judge<S>>(
    replies: &mut Vec<Reply>,
    known: &mut Known,
    bureau: &mut Bureau<S, J>,
    asked: &Asked,
) -> Checked<()> {
    push(replies, told(known, bureau, asked)?)
}

/// The answers to these questions, one after the other.
pub(crate) fn all_told<S: Store, J: Judge<S>>(
    alloc: Global,
    known: &mut Known,
    bureau: &mut Bureau<S, J>,
    questions: &[Asked],
) -> Checked<Vec<Reply>> {
    let mut replies = Vec::new(alloc);
    for asked in questions {
        put_told(&mut replies, known, bureau, asked)?;
    }
    Ok(replies)
}

fn is_so(reply: &Reply, text: &str) -> bool {
    reply.status == 200 && reply.body.as_slice() == text.as_bytes()
}

/// Whether these replies are the same.
pub(crate) fn are_same(replies: &[Reply], others: &[Reply]) -> bool {
    replies.len() == others.len()
        && replies.iter().zip(others).all(|(reply, other)| {
            reply.status == other.status && reply.body.as_slice() == other.body.as_slice()
        })
}

/// Whether a desk gives this answer.
pub(crate) fn tells<S: Store, J: Judge<S>>(
    known: &mut Known,
    bureau: &mut Bureau<S, J>,
    row: &Told,
) -> Checked<()> {
    let (asked, text) = row;
    if !is_so(&told(known, bureau, asked)?, text) {
        return Err("a desk over lists tells something else");
    }
    Ok(())
}

// The answer to a request of the script.
#[derive(Clone, Copy)]
enum Answer {
    Right,
    Other,
    NoRoom,
}

fn answer_to<S: Store, J: Judge<S>>(
    known: &mut Known,
    bureau: &mut Bureau<S, J>,
    row: &Told,
) -> Checked<Answer> {
    let (asked, text) = row;
    let reply = told(known, bureau, asked)?;
    if reply.status == 503 {
        return Ok(Answer::NoRoom);
    }
    Ok(if is_so(&reply, text) {
        Answer::Right
    } else {
        Answer::Other
    })
}

/// Asks these one after the other until one answer says that there is no room. Then all later ones have to say so
/// too. Returns the number of those that were answered, each as it should be.
pub(crate) fn served<S: Store, J: Judge<S>>(
    known: &mut Known,
    bureau: &mut Bureau<S, J>,
    rows: &[Told],
) -> Checked<usize> {
    let mut answered = 0usize;
    let mut is_closed = false;
    for row in rows {
        match answer_to(known, bureau, row)? {
            Answer::NoRoom => is_closed = true,
            _ if is_closed => return Err("a call is answered after the stop"),
            Answer::Right => answered = answered.saturating_add(1),
            Answer::Other => return Err("an answer is another one"),
        }
    }
    Ok(answered)
}

// Whether the desk knows the caller whose token this is.
fn knows<S: Store, J: Judge<S>>(
    known: &mut Known,
    bureau: &mut Bureau<S, J>,
    token: &[u8],
) -> bool {
    match (known.lists.caller_of(token), bureau.caller_of(token)) {
        (Ok(Some(caller)), Ok(Some(found))) => caller == found,
        _ => false,
    }
}

/// Whether the desk knows each caller by the caller's token.
pub(crate) fn knows_callers<S: Store, J: Judge<S>>(
    known: &mut Known,
    bureau: &mut Bureau<S, J>,
) -> bool {
    for token in [PUBLISHER, ALPHA, BETA] {
        if !knows(known, bureau, token) {
            return false;
        }
    }
    true
}
