//! The bureau that all callers share: a store and a judge, and the answer to each call.
ghost use Rattle.std.specs.Prelude.{◌≡◌, length, All, IfOk, IfSome, OnErr};
ghost use Rattle.catalogue.specs.View.{Goes, Tells};
ghost use Rattle.bureau_store.specs.Caller.{IsProper, caller_with};
ghost use Rattle.bureau_store.specs.Store.{Reads};
ghost use Rattle.bureau.specs.Answering.{AreAnswered, IsAnswered, bureau_view};
ghost use Rattle.bureau.specs.Calls.{call_as};
ghost use Rattle.bureau.specs.Outcomes.{answer_in};
ghost use Rattle.bureau.specs.Replies.{reply_as};

use crate::commit::commit;
use crate::decide::decide;
use crate::lack::Lack;
use crate::outcome::Outcome;
use crate::{Call, NoMemory, Reply};
use bureau_store::{Caller, Store, StoreFault};
use std::alloc::Global;
use std::marker::Model;
use verdicts::Judge;

/// The bureau that all callers share, over a store and a judge. A contract sees both.
#[derive(Drop)]
pub struct Bureau<S, J> {
    alloc: Global,
    store: S,
    judge: J,
}

impl<S, J> Model for Bureau<S, J> {
    ghost use Rattle.bureau.specs.Parts.{Parts};

    ghost Value = { Parts S J };

    ghost view = { λ bureau. record { store = bureau.store; judge = bureau.judge } };
}

impl<S: Store, J: Judge<S>> Bureau<S, J> {
    /// The bureau over a store and a judge. What a call tells of its tables is promised if the judge is right for the
    /// published content.
    pub fn new(alloc: Global, store: S, judge: J) -> Self
        ensures { result ≡ record { store = store; judge = judge } }
    {
        Bureau {
            alloc,
            store,
            judge,
        }
    }

    /// The store.
    pub fn store(&self) -> &S
        ensures { result.now ≡ self.now.store }
    {
        &self.store
    }

    /// The judge.
    pub fn judge(&self) -> &J
        ensures { result.now ≡ self.now.judge }
    {
        &self.judge
    }

    /// Returns the store and the judge.
    pub fn into_parts(self) -> (S, J)
        ensures store { result.0 ≡ self.store }
        ensures judge { result.1 ≡ self.judge }
    {
        (self.store, self.judge)
    }

    /// Finds the caller whose token this is, or `None` if no caller has it.
    ///
    /// # Errors
    ///
    /// `Memory` if memory ran out, `Device` if the store has failed, now or before. Nothing has changed.
    pub fn caller_of(&mut self, token: &[u8]) -> Result<Option<Caller>, StoreFault>
        ensures reads { Reads (bureau_view S.tables_view J.is_right) self.old self.new result }
        ensures caller { IfOk result (λ found. Tells (bureau_view S.tables_view J.is_right) self.old self.new
            (λ this. found ≡ caller_with this.callers token.now)) }
        ensures proper { IfOk result (λ found. IfSome found IsProper) }
    {
        self.store.caller_of(token)
    }

    /// Answers a call by a caller, as the definitions of the joint bureau say.
    ///
    /// If there is no room for the call, the answer is 503 and nothing has changed. If the store's device failed in
    /// the call, the answer is 503 too. Then what the store holds is found when it is opened again, and from then on
    /// nothing is answered from the tables.
    pub fn answer(&mut self, caller: &Caller, call: &Call<'_>) -> Reply
        requires { IsProper caller.now }
        ensures { IsAnswered (bureau_view S.tables_view J.is_right) self.old self.new
            (record { caller = caller.now; call = call_as call.now; answer = reply_as result }) }
    {
        match reply_to(self.alloc, &mut self.store, &mut self.judge, caller, call) {
            Ok(reply) => reply,
            Err(lack) => Reply::no_room(self.alloc, lack),
        }
    }

    /// Answers calls, one after the other. It makes the room for the list of answers before the first call.
    ///
    /// `run` says that the calls with their answers are a run of the bureau, and what is true of every such run. What
    /// is told as accepted is kept. A stop loses nothing that was acknowledged. Each caller is answered as by a bureau
    /// that received the publisher's calls and that caller's alone (see [`isolation`](crate::isolation)). A change
    /// acts once (see [`repeats`](crate::repeats)).
    ///
    /// # Errors
    ///
    /// Memory ran out, before the first call. Nothing has changed.
    pub fn run(&mut self, calls: &[(Caller, Call<'_>)]) -> Result<Vec<Reply>, NoMemory>
        requires { All (λ asked. IsProper asked.0) calls.now }
        ensures goes { Goes (bureau_view S.tables_view J.is_right) self.old self.new }
        ensures length { IfOk result (λ replies. length replies.items ≡ length calls.now) }
        ensures run { IfOk result (λ replies.
            AreAnswered (bureau_view S.tables_view J.is_right) self.old self.new calls.now replies.items) }
        ensures err { OnErr result (self.new ≡ self.old) }
    {
        let mut replies = Vec::with_capacity(self.alloc, calls.len())?;
        for asked in calls {
            let reply = self.answer(&asked.0, &asked.1);
            let _ = replies.push(reply);
        }
        Ok(replies)
    }
}

// The answer to a call. A change is made once its answer is.
fn reply_to<S: Store, J: Judge<S>>(
    alloc: Global,
    store: &mut S,
    judge: &mut J,
    caller: &Caller,
    call: &Call<'_>,
) -> Result<Reply, Lack>
    requires { IsProper caller.now }
    ensures { IsAnswered (bureau_view S.tables_view J.is_right)
        (record { store = store.old; judge = judge.old }) (record { store = store.new; judge = judge.new })
        (record { caller = caller.now; call = call_as call.now; answer = answer_in result }) }
{
    match decide(alloc, store, judge, caller, call)? {
        Outcome::Answered(reply) => Ok(reply),
        Outcome::Accepted(change) => {
            commit(store, judge, &change)?;
            Ok(Reply::text(change.reply))
        }
    }
}
