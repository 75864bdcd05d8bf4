//! Rounds of events, until all connections were served.
ghost use Rattle.std.specs.Prelude.{◌≡◌, ◌+◌, ◌<◌, [], ◌∷◌, map, IfErr, IfNone, IfOk, IfSome, OnOk};
ghost use Rattle.bureau.specs.Answering.{bureau_view};
ghost use Rattle.catalogue.specs.View.{Goes};
ghost use Rattle.connections.specs.Items.{AreFree, comers, event_of};
ghost use Rattle.connections.specs.Memory.{StaysWithin};
ghost use Rattle.connections.specs.Rounds.{AreAllServed, EndsBy, HasHaltedBy, HasServedAll, HasServedBut, IsHaltedBy, Log, Logs, last_showing, round_of};
ghost use Rattle.connections.specs.declared.rounds.RoundFault.{RoundFault};

use crate::event::Event;
use crate::service::go_while_open;
use crate::slots::Connections;
use bureau::{Bureau, isolation, repeats};
use bureau_store::Store;
use requests::{Routes, later_bytes};
use std::alloc::Global;
use thiserror::Error;
use verdicts::Judge;

/// The state after a round.
#[derive(Clone, Copy, Debug, PartialEq, Eq)]
pub enum Round {
    /// Connections are open, or may have come.
    Busy,
    /// No connection is open.
    Idle,
}

/// Why there are no more rounds.
#[derive(Clone, Copy, Debug, PartialEq, Eq, Error)]
pub enum RoundFault {
    /// The system tells no more of connections; or more came than should.
    #[error("the system tells no more of connections")]
    System,
    /// Memory ran out.
    #[error("memory ran out")]
    Memory,
}

/// Why a desk stops before all connections were served.
#[derive(Clone, Copy, Debug, PartialEq, Eq, Error)]
pub enum Halt {
    /// The device of the store failed.
    #[error("the device of the store failed")]
    Device,
    /// There are no more rounds.
    #[error("{0}")]
    Rounds(RoundFault),
}

/// Tells the events of connections, in rounds, and writes the bytes that have to go out.
///
/// Nothing is known of what comes over the system's own sockets. Other `Rounds`, such as a list of events, may know all
/// of it. So a proof about every `Rounds` says what is served and in which order, and what is shown to be written.
pub trait Rounds {
    /// The rounds so far, the oldest first, as far as they are known.
    ghost log: { Self → Log };

    /// That this fault ended the rounds. Only the contract of `round` gives it.
    ghost is_over: { Self → RoundFault → Type 0 };

    /// Waits until something happens to connections in these states, reads and writes what it can, and tells of it. So
    /// many more connections may come. The events count also if there is an error.
    ///
    /// # Errors
    ///
    /// There are no more rounds.
    fn round(
        &mut self,
        connections: &Connections,
        left: u32,
        told: &mut Vec<Event>,
    ) -> Result<Round, RoundFault>
        requires { told.old.items ≡ [] }
        ensures log { Logs (log self.old) (log self.new)
            (round_of connections.now.slots.items left (map event_of told.new.items) ∷ []) }
        ensures over { IfErr result (is_over self.new) };

    /// The events of a slot were served, and so many bytes may be read next.
    fn let_read(&mut self, slot: usize, room: usize)
        ensures { log self.new ≡ log self.old };

    /// The slot of the connection with this index, counted from 0, among those whose body waits for room.
    fn short_at(&self, index: usize) -> Option<usize>;

    /// Shows the connections for the last time: the device has failed, and they were in these states after the event at
    /// which it did. The events of the last round after that one were not looked at. A slot still shows the bytes that
    /// they wrote; and if they say that a connection left or came, it shows the connection before. The bytes of all
    /// other slots may be written, as far as that takes no wait.
    fn show_last(&mut self, connections: &Connections)
        ensures { Logs (log self.old) (log self.new) (last_showing connections.now.slots.items ∷ []) };
}

/// Serves so many connections side by side to their ends, beside a bureau: the events of each round, one after the
/// other. After each event it looks whether the device of the bureau's store has failed. It shows each round the
/// connections as they are.
///
/// # Errors
///
/// [`Halt::Device`] once the device has failed. Then it looks at nothing more, whatever connection that is of.
/// [`Halt::Rounds`] if there are no more rounds, or more connections came than should. What was told until then was
/// served.
pub fn serve_rounds<S: Store, J: Judge<S>, R: Rounds>(
    alloc: Global,
    bureau: &mut Bureau<S, J>,
    routes: &Routes,
    connections: &mut Connections,
    rounds: &mut R,
    count: u32,
) -> Result<(), Halt>
    ensures goes { Goes (bureau_view S.tables_view J.is_right) bureau.old bureau.new }
    ensures served { OnOk result (AreAllServed (bureau_view S.tables_view J.is_right) bureau.old bureau.new
        (R.log rounds.old) (R.log rounds.new) connections.old.slots.items connections.new.slots.items count) }
    ensures halted { IfErr result (IsHaltedBy (bureau_view S.tables_view J.is_right) bureau.old bureau.new
        (R.log rounds.old) (R.log rounds.new) connections.old.slots.items connections.new.slots.items
        (R.is_over rounds.new) count) }
    ensures within { StaysWithin connections.old connections.new }
{
    // These three do nothing. Their contracts are laws that the proof of this contract cites.
    isolation();
    repeats();
    later_bytes();
    go_in_rounds(alloc, bureau, routes, connections, rounds, count)
}

// The same, as one run after another.
fn go_in_rounds<S: Store, J: Judge<S>, R: Rounds>(
    alloc: Global,
    bureau: &mut Bureau<S, J>,
    routes: &Routes,
    connections: &mut Connections,
    rounds: &mut R,
    count: u32,
) -> Result<(), Halt>
    ensures served { OnOk result (HasServedAll (bureau_view S.tables_view J.is_right) bureau.old bureau.new
        (R.log rounds.old) (R.log rounds.new) connections.old connections.new count) }
    ensures gone { OnOk result (AreFree connections.new.slots.items) }
    ensures halted { IfErr result (λ halt. HasHaltedBy (bureau_view S.tables_view J.is_right)
        (R.is_over rounds.new) halt bureau.old bureau.new (R.log rounds.old) (R.log rounds.new)
        connections.old connections.new count) }
{
    let mut told = Vec::new(alloc);
    let mut left = count;
    // Nothing bounds the rounds of a desk, and each loop has to be proved to end. A million rounds a second take 580,000
    // years to come to this bound.
    for _ in 0..u64::MAX {
        told.clear();
        let turn = go_round(alloc, bureau, routes, connections, rounds, left, &mut told);
        let (rest, round) = match turn {
            Ok(after) => after,
            Err(halt) => return Err(halt),
        };
        left = rest;
        if left == 0 && round == Round::Idle && connections.are_free() {
            return Ok(());
        }
    }
    Err(Halt::Rounds(RoundFault::System))
}

// One round, while so many connections are to come. It returns the number that are to come after it, and the state.
fn go_round<S: Store, J: Judge<S>, R: Rounds>(
    alloc: Global,
    bureau: &mut Bureau<S, J>,
    routes: &Routes,
    connections: &mut Connections,
    rounds: &mut R,
    left: u32,
    told: &mut Vec<Event>,
) -> Result<(u32, Round), Halt>
    requires { told.old.items ≡ [] }
    ensures served { IfOk result (λ rest. HasServedBut (bureau_view S.tables_view J.is_right)
        bureau.old bureau.new (R.log rounds.old) (R.log rounds.new)
        connections.old connections.new rest.0 left 1) }
    ensures ended { IfErr result (λ halt. EndsBy (bureau_view S.tables_view J.is_right)
        (R.is_over rounds.new) halt bureau.old bureau.new (R.log rounds.old) (R.log rounds.new)
        connections.old connections.new left) }
{
    let round = rounds.round(connections, left, told);
    if go_while_open(alloc, bureau, routes, connections, told.as_slice()) {
        rounds.show_last(connections);
        return Err(Halt::Device);
    }
    let round = match round {
        Ok(round) => round,
        Err(fault) => return Err(Halt::Rounds(fault)),
    };
    let Some(rest) = left_after(left, told.as_slice()) else {
        return Err(Halt::Rounds(RoundFault::System));
    };
    note_rooms(connections, rounds, told.as_slice());
    Ok((rest, round))
}

// The number of connections that are to come after these events, if no more came than should.
fn left_after(left: u32, events: &[Event]) -> Option<u32>
    ensures some { IfSome result (λ rest. rest + comers (map event_of events.now) ≡ left) }
    ensures none { IfNone result (left < comers (map event_of events.now)) }
{
    let mut rest = left;
    for event in events {
        match rest.checked_sub(event.comers()) {
            Some(less) => rest = less,
            None => return None,
        }
    }
    Some(rest)
}

// Tells the rounds the bytes that may be read next over each connection of these events, and over those whose body
// didn't fit the limit.
fn note_rooms<R: Rounds>(connections: &mut Connections, rounds: &mut R, events: &[Event])
    ensures slots { connections.new.slots.items ≡ connections.old.slots.items }
    ensures within { StaysWithin connections.old connections.new }
    ensures none { R.log rounds.new ≡ R.log rounds.old }
{
    for event in events {
        note_room(connections, rounds, event.slot());
    }
    share_out(connections, rounds);
}

// Bodies that didn't fit the limit may fit it now.
fn share_out<R: Rounds>(connections: &mut Connections, rounds: &mut R)
    ensures slots { connections.new.slots.items ≡ connections.old.slots.items }
    ensures within { StaysWithin connections.old connections.new }
    ensures none { R.log rounds.new ≡ R.log rounds.old }
{
    for index in 0..connections.slots.len() {
        let Some(slot) = rounds.short_at(index) else {
            return;
        };
        note_room(connections, rounds, slot);
    }
}

// Tells the rounds the bytes that may be read next over a connection.
fn note_room<R: Rounds>(connections: &mut Connections, rounds: &mut R, slot: usize)
    ensures slots { connections.new.slots.items ≡ connections.old.slots.items }
    ensures within { StaysWithin connections.old connections.new }
    ensures none { R.log rounds.new ≡ R.log rounds.old }
{
    let room = connections.room(slot);
    rounds.let_read(slot, room);
}
