//! A desk over lists whose device can be made to fail, and the questions of rows to it.
ghost use Rattle.std.specs.Prelude.{IfOk, IfSome};
ghost use Rattle.bureau_store.specs.Caller.{IsProper};

use crate::asked::call_of;
use crate::judged::Judged;
use crate::told::lines_of;
use bureau::Bureau;
use bureau_store::{Caller, ListStore, Store, callers};
use failing_store::FailingStore;
use std::alloc::Global;
use std::hash::RandomState;
use std::test::Fail;

const CALLERS: &[u8] = b"NAME,TOKEN
PUBLISH,publisher-token
ALPHA,alpha-token
BETA,beta-token
GAMMA,gamma-token
";

/// A desk, and the last question to it.
pub(crate) struct Desk<J> {
    keys: RandomState,
    // The number of frames for which it has room if no row says so.
    room: u32,
    // The callers, who stay known if the desk's own store fails.
    known: ListStore,
    // The bureau. It is missing only while another one is made of its parts.
    bureau: Option<Bureau<FailingStore, J>>,
    question: String,
    answer: String,
    /// The number of frames that were kept when the store last failed.
    pub kept: usize,
}

// By hand, so that a function that owns one drops it by one call.
impl<J: Drop> Drop for Desk<J> {
    fn drop(self) {
        let Desk {
            keys: _,
            room: _,
            known,
            bureau,
            question,
            answer,
            kept: _,
        } = self;
        drop(known);
        drop(bureau);
        drop(question);
        drop(answer);
    }
}

fn new_lists(alloc: Global) -> Result<ListStore, Fail> {
    let rows = callers(alloc, CALLERS)?;
    Ok(ListStore::new(alloc, &rows)?)
}

fn token_of(name: &str) -> &'static [u8] {
    match name {
        "PUBLISH" => b"publisher-token",
        "ALPHA" => b"alpha-token",
        "BETA" => b"beta-token",
        "GAMMA" => b"gamma-token",
        _ => b"",
    }
}

impl<J: Judged> Desk<J> {
    pub(crate) fn new(alloc: Global, keys: RandomState, room: u32) -> Result<Desk<J>, Fail> {
        Ok(Desk {
            keys,
            room,
            known: new_lists(alloc)?,
            bureau: None,
            question: String::new(alloc),
            answer: String::new(alloc),
            kept: 0,
        })
    }

    /// Makes a desk to which no question was put.
    pub(crate) fn renew(&mut self, alloc: Global) -> Result<(), Fail> {
        self.question.clear();
        self.answer.clear();
        self.kept = 0;
        self.make_room(alloc, self.room)
    }

    /// The same, with room for so many frames.
    pub(crate) fn make_room(&mut self, alloc: Global, room: u32) -> Result<(), Fail> {
        let judge = J::fresh(alloc, self.keys, room)?;
        let store = FailingStore::new(new_lists(alloc)?, u64::MAX);
        self.bureau = Some(Bureau::new(alloc, store, judge));
        Ok(())
    }

    /// Opens the store again, which then answers so many calls before it fails.
    pub(crate) fn open(&mut self, alloc: Global, calls: u64) -> Result<(), Fail> {
        let (store, judge) = self.bureau.take().ok_or("a desk")?.into_parts();
        let store = FailingStore::new(store.lists, calls);
        self.bureau = Some(Bureau::new(alloc, store, judge));
        Ok(())
    }

    fn bureau(&mut self) -> Result<&mut Bureau<FailingStore, J>, Fail> {
        Ok(self.bureau.as_mut().ok_or("a desk")?)
    }

    /// The number of frames that were built.
    pub(crate) fn built(&mut self) -> Result<u64, Fail> {
        Ok(self.bureau()?.judge().built())
    }

    /// Notes the number of frames that are kept.
    pub(crate) fn note_kept(&mut self) -> Result<(), Fail> {
        self.kept = self.bureau()?.judge().kept();
        Ok(())
    }

    // The caller of this name.
    fn caller(&mut self, name: &str) -> Result<Option<Caller>, Fail>
        ensures { IfOk result (λ found. IfSome found IsProper) }
    {
        match self.known.caller_of(token_of(name)) {
            Ok(found) => Ok(found),
            Err(_) => Err("the callers".into()),
        }
    }

    /// The answer to a caller's request, or `None` if nobody has this name or it is no request.
    pub(crate) fn told(
        &mut self,
        alloc: Global,
        name: &str,
        request: &str,
        body: &str,
    ) -> Result<Option<String>, Fail> {
        let Some(call) = call_of(request, body.as_bytes()) else {
            return Ok(None);
        };
        let Some(caller) = self.caller(name)? else {
            return Ok(None);
        };
        let replies = self.bureau()?.run(&[(caller, call)])?;
        let reply = replies.first().ok_or("a reply")?;
        Ok(Some(lines_of(alloc, reply)?))
    }

    /// The same; `asked` is the caller's name with the request.
    pub(crate) fn told_to(
        &mut self,
        alloc: Global,
        asked: &str,
        body: &str,
    ) -> Result<Option<String>, Fail> {
        let (name, request) = asked.split_once(' ').unwrap_or((asked, ""));
        self.told(alloc, name, request, body)
    }

    /// Whether the device has failed, and nobody is known by a token.
    pub(crate) fn has_failed(&mut self) -> Result<bool, Fail> {
        let bureau = self.bureau()?;
        let is_told = bureau.store().device_failed();
        Ok(is_told && bureau.caller_of(b"alpha-token").is_err())
    }

    /// Keeps the last question, with its answer.
    pub(crate) fn keep(&mut self, name: &str, request: &str, told: &str) -> Result<(), Fail> {
        self.question.clear();
        self.question.push_str(name)?;
        self.question.push(' ')?;
        self.question.push_str(request)?;
        self.answer.clear();
        Ok(self.answer.push_str(told)?)
    }

    /// Whether the last question is answered as it was.
    pub(crate) fn is_as_before(&mut self, alloc: Global) -> Result<bool, Fail> {
        let (question, answer) = (self.question.clone()?, self.answer.clone()?);
        let told = self.told_to(alloc, &question, "")?;
        Ok(told.as_deref() == Some(answer.as_str()))
    }
}
