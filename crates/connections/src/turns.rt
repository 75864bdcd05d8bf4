//! Requests that wait, and whose turn it is.
ghost use Rattle.std.specs.Prelude.{◌≡◌, ◌≢◌, ◌<◌, ◌↔◌, [], IfNone, IfSome, IsTrue, OnErr, OnOk, length, map, slice_get, true, false, Some};
ghost use Rattle.connections.specs.Fair.{AreFair, IsMore, IsNoneOf, IsTurn, Joins, StandOnce, callers_in, waits_of};

use std::alloc::{AllocError, Global};
use std::collections::VecDeque;
use std::marker::Model;

/// A caller whose requests wait.
#[derive(Drop)]
pub(crate) struct Waiting {
    // its token, or no byte
    caller: Vec<u8>,
    // the slot of its request that waits longest, and those of the others
    first: usize,
    others: VecDeque<usize>,
}

/// Requests that wait, each of the connection in a slot: callers have their turns one after the other.
#[derive(Drop)]
pub struct Turns {
    alloc: Global,
    callers: VecDeque<Waiting>,
}

impl Model for Turns {
    ghost use Rattle.std.specs.Prelude.{map};
    ghost use Rattle.connections.specs.Fair.{Queue, waits_of};

    ghost Value = { Queue };

    ghost view = { λ turns. map waits_of turns.callers.items };
}

impl Turns {
    /// None waits.
    pub fn new(alloc: Global) -> Turns
        ensures { result ≡ [] }
    {
        Turns {
            alloc,
            callers: VecDeque::new(alloc),
        }
    }

    /// The number of callers of whom a request waits.
    pub fn len(&self) -> usize
        ensures { result ≡ length self.now }
    {
        self.callers.len()
    }

    /// The request of the connection in a slot waits, behind those of its caller. A caller is known by the token of its
    /// requests; all without one are of one caller, whose token has no byte.
    ///
    /// # Errors
    ///
    /// Memory ran out. Then it doesn't wait.
    pub fn join(&mut self, caller: &[u8], slot: usize) -> Result<(), AllocError>
        ensures joins { OnOk result (Joins caller.now slot self.old self.new) }
        ensures same { OnErr result (self.new ≡ self.old) }
    {
        match place(&self.callers, caller) {
            Some(at) => join_at(&mut self.callers, at, slot),
            None => come(self.alloc, &mut self.callers, caller, slot),
        }
    }

    /// The slot of the connection whose request is to be answered next, if one waits.
    pub fn next(&mut self) -> Option<usize>
        ensures { IsTurn self.old result self.new }
    {
        let mut first = self.callers.pop_front()?;
        let slot = first.first;
        if let Some(other) = first.others.pop_front() {
            first.first = other;
            self.callers.push_back_reserved(first);
        }
        Some(slot)
    }
}

/// Callers have their turns one after the other: until one has its own, each of those before it has one, and nobody else. No
/// caller stands twice among them.
pub fn fair_turns()
    ensures fair { AreFair }
    ensures once { StandOnce }
{}

// A request joins those of the caller at a place.
fn join_at(callers: &mut VecDeque<Waiting>, at: usize, slot: usize) -> Result<(), AllocError>
    requires { (one : _) × (slice_get callers.old.items at ≡ Some one) }
    ensures more { OnOk result (IsMore at true slot callers.old.items callers.new.items) }
    ensures same { OnErr result (IsMore at false slot callers.old.items callers.new.items) }
{
    callers[at].others.push_back(slot)?;
    Ok(())
}

// A caller of whom none waits comes with its first request.
fn come(
    alloc: Global,
    callers: &mut VecDeque<Waiting>,
    caller: &[u8],
    slot: usize,
) -> Result<(), AllocError>
    requires { IsNoneOf caller.now (callers_in (map waits_of callers.old.items)) }
    ensures joins { OnOk result (Joins caller.now slot
        (map waits_of callers.old.items) (map waits_of callers.new.items)) }
    ensures same { OnErr result (callers.new.items ≡ callers.old.items) }
{
    let caller = Vec::from_slice(alloc, caller)?;
    callers.push_back(Waiting {
        caller,
        first: slot,
        others: VecDeque::new(alloc),
    })?;
    Ok(())
}

// The place of a caller.
fn place(callers: &VecDeque<Waiting>, caller: &[u8]) -> Option<usize>
    ensures some { IfSome result (λ at. (one : _) × (slice_get callers.now.items at ≡ Some one)
        × (one.caller.items ≡ caller.now)) }
    ensures none { IfNone result (IsNoneOf caller.now (callers_in (map waits_of callers.now.items))) }
{
    for at in 0..callers.len() {
        if is_at(callers, at, caller) {
            return Some(at);
        }
    }
    None
}

// Whether the caller at a place is this one.
fn is_at(callers: &VecDeque<Waiting>, at: usize, caller: &[u8]) -> bool
    requires { at < length callers.now.items }
    ensures yes { IsTrue result → (one : _) → slice_get callers.now.items at ≡ Some one
        → one.caller.items ≡ caller.now }
    ensures no { result ≡ false → (one : _) → slice_get callers.now.items at ≡ Some one
        → one.caller.items ≢ caller.now }
{
    is_same(callers[at].caller.as_slice(), caller)
}

// Whether two tokens are the same.
fn is_same(token: &[u8], other: &[u8]) -> bool
    ensures { IsTrue result ↔ token.now ≡ other.now }
{
    token == other
}
