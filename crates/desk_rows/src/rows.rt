//! The words of rows of a desk.
//!
//! | Row | What it asks |
//! |---|---|
//! | `CALLER METHOD PATH [NUMBER]` | a request, with the lines before it as its body: its status, and the lines of the reply's body |
//! | `fails REQUEST` | the same of a store that fails at its first call, at its second one, and so on, until the request is answered |
//! | `room FRAMES` | the desk is new, with room for so many frames |
//! | `built` | how many frames were built since the case began |
//! | `kept` | how many frames were kept when the store last failed |
//!
//! If the store fails, the caller is told 503, and the desk is closed. Then the store is opened again, and the last
//! question before that request has the same answer as before.
use crate::desk::Desk;
use crate::judged::Judged;
use std::alloc::Global;
use std::test::Fail;
use testing_rows::{Row, Subject};

// The answer of a desk whose store has failed.
const REFUSED: &str = "503\n\n";

// The answer to the publisher, who has no zones, whatever the store does.
const NOT_ALLOWED: &str = "403\nNOT ALLOWED\n";

// The most calls of a store at which a request may fail.
const MOST_CALLS: u64 = 64;

impl<J: Judged> Subject for Desk<J> {
    fn begin(&mut self, alloc: Global) -> Result<(), Fail> {
        self.renew(alloc)
    }

    fn answer(&mut self, alloc: Global, row: &Row) -> Result<Option<String>, Fail> {
        match row.word.as_str() {
            "room" => room(alloc, self, &row.rest),
            "built" => Ok(Some(format!(in alloc; "{}\n", self.built()?)?)),
            "kept" => Ok(Some(format!(in alloc; "{}\n", self.kept)?)),
            "fails" => failing(alloc, self, &row.rest, &row.given),
            name => asked(alloc, self, name, &row.rest, &row.given),
        }
    }
}

fn room<J: Judged>(
    alloc: Global,
    desk: &mut Desk<J>,
    frames: &str,
) -> Result<Option<String>, Fail> {
    let Ok(frames) = frames.parse::<u32>() else {
        return Ok(None);
    };
    desk.make_room(alloc, frames)?;
    Ok(Some(String::new(alloc)))
}

fn asked<J: Judged>(
    alloc: Global,
    desk: &mut Desk<J>,
    name: &str,
    request: &str,
    body: &str,
) -> Result<Option<String>, Fail> {
    let told = desk.told(alloc, name, request, body)?;
    if request.starts_with("GET ") {
        desk.keep(name, request, told.as_deref().unwrap_or(""))?;
    }
    Ok(told)
}

// Makes a request to a store that fails at each of its calls, one after the other. Returns the last answer.
fn failing<J: Judged>(
    alloc: Global,
    desk: &mut Desk<J>,
    asked: &str,
    body: &str,
) -> Result<Option<String>, Fail> {
    for calls in 0..MOST_CALLS {
        desk.open(alloc, calls)?;
        let told = desk.told_to(alloc, asked, body)?;
        if told.as_deref() != Some(REFUSED) {
            return answered(alloc, desk, calls, told);
        }
        if !is_closed(alloc, desk, asked, body)? || !is_opened(alloc, desk)? {
            return said(alloc, calls, "the desk is not as it must be");
        }
    }
    said(alloc, MOST_CALLS, "there is no answer yet")
}

// The answer if no call has failed. At least one should have failed.
fn answered<J: Judged>(
    alloc: Global,
    desk: &mut Desk<J>,
    calls: u64,
    told: Option<String>,
) -> Result<Option<String>, Fail> {
    let is_wrong = calls == 0 || desk.has_failed()?;
    desk.open(alloc, u64::MAX)?;
    if is_wrong {
        return said(alloc, calls, "no failure is told");
    }
    Ok(told)
}

// Whether a desk whose store has failed answers nothing.
fn is_closed<J: Judged>(
    alloc: Global,
    desk: &mut Desk<J>,
    asked: &str,
    body: &str,
) -> Result<bool, Fail> {
    let (again, listed) = (
        desk.told_to(alloc, asked, body)?,
        desk.told_to(alloc, "PUBLISH GET /zones", "")?,
    );
    Ok(
        again.as_deref() == Some(REFUSED)
            && listed.as_deref() == Some(NOT_ALLOWED)
            && desk.has_failed()?,
    )
}

// Whether the last question has the same answer as before, once the store is opened again.
fn is_opened<J: Judged>(alloc: Global, desk: &mut Desk<J>) -> Result<bool, Fail> {
    desk.note_kept()?;
    desk.open(alloc, u64::MAX)?;
    desk.is_as_before(alloc)
}

fn said(alloc: Global, calls: u64, why: &str) -> Result<Option<String>, Fail> {
    Ok(Some(format!(in alloc; "after {calls} calls {why}\n")?))
}
