//! Events in order, and the requests that are answered after each.
ghost use Rattle.std.specs.Prelude.{◌≡◌, ◌+◌, ◌*◌, ◌≤◌, [], ◌∷◌, length, map};
ghost use Rattle.bureau.specs.Kept.{IsKeptRun};
ghost use Rattle.bureau.specs.Runs.{IsLawfulRun};
ghost use Rattle.catalogue.specs.View.{Goes, Tells};
ghost use Rattle.connections.specs.Items.{event_of, slot_of};
ghost use Rattle.connections.specs.Memory.{IsReplyCounted, IsWithin, StaysWithin, held_by};
ghost use Rattle.connections.specs.SideBySide.{AreDone, AreServedSideBySide, IsOnward};
ghost use Rattle.connections.specs.Turns.{AreSettled, AreSettledBut};

use crate::event::{Event, Told};
use crate::slots::Connections;
use bureau::{isolation, repeats};
use bureau_http::Desk;
use requests::{Routes, later_bytes};
use std::alloc::Global;

/// Goes through events in order. After each it answers the next request of its connection, if that has come whole and
/// the last reply went out.
///
/// Want of memory ends only the connection that it befalls, or is answered 503. All connections together hold at most
/// the limit and a head's room for each.
pub fn serve_events<D: Desk>(
    alloc: Global,
    desk: &mut D,
    routes: &Routes,
    connections: &mut Connections,
    events: &[Event],
)
    ensures goes { Goes D.tables_view desk.old desk.new }
    ensures served { Tells D.tables_view desk.old desk.new (λ this.
        AreServedSideBySide (IsLawfulRun D.tables_view desk.old desk.new) this (map event_of events.now)
        connections.old.slots.items connections.new.slots.items) }
    ensures within { StaysWithin connections.old connections.new }
    ensures memory { IsWithin connections.old →
        held_by connections.new.slots.items
        ≤ connections.old.shares.limit + 16384 * length connections.old.slots.items }
{
    // These three do nothing. Their contracts are laws that the proof of this contract cites.
    isolation();
    repeats();
    later_bytes();
    go_through(alloc, desk, routes, connections, events);
    connections.shares.add_up();
}

// Goes through events in order.
fn go_through<D: Desk>(
    alloc: Global,
    desk: &mut D,
    routes: &Routes,
    connections: &mut Connections,
    events: &[Event],
)
    ensures onward { IsOnward D.tables_view desk.old desk.new (map event_of events.now)
        connections.old connections.new }
{
    for event in events {
        serve_event(alloc, desk, routes, connections, event);
    }
}

/// Serves one event. Then it answers the next request of its connection, if that has come whole and the last reply
/// went out. The reply counts from then on, until all of it went out.
pub fn serve_event<D: Desk>(
    alloc: Global,
    desk: &mut D,
    routes: &Routes,
    connections: &mut Connections,
    event: &Event,
)
    ensures onward { IsOnward D.tables_view desk.old desk.new (event_of event.now ∷ [])
        connections.old connections.new }
    ensures replies { IsReplyCounted (slot_of (event_of event.now)) connections.old connections.new }
{
    tell(alloc, desk, routes, connections, event);
    connections.give_back(event.slot());
}

// Lets an event happen, and answers the next request of its connection.
fn tell<D: Desk>(
    alloc: Global,
    desk: &mut D,
    routes: &Routes,
    connections: &mut Connections,
    event: &Event,
)
    ensures onward { IsOnward D.tables_view desk.old desk.new (event_of event.now ∷ [])
        connections.old connections.new }
    ensures replies { connections.new.replies ≡ connections.old.replies }
{
    match connections.happens(alloc, event) {
        Told::Done => go_on(alloc, desk, routes, connections, event.slot()),
        Told::Missed => {}
        Told::Stray => {}
    }
}

// Answers the next request of the connection in a slot, if that has come whole and the last reply went out.
fn go_on<D: Desk>(
    alloc: Global,
    desk: &mut D,
    routes: &Routes,
    connections: &mut Connections,
    slot: usize,
)
    ensures goes { Goes D.tables_view desk.old desk.new }
    ensures so_far { Tells D.tables_view desk.old desk.new (λ this.
        AreDone (IsKeptRun D.tables_view desk.old desk.new) this slot []
        connections.old.slots.items connections.new.slots.items) }
    ensures settled { Tells D.tables_view desk.old desk.new (λ this.
        AreSettledBut slot connections.old.slots.items → AreSettled connections.new.slots.items) }
    ensures within { StaysWithin connections.old connections.new }
    ensures replies { connections.new.replies ≡ connections.old.replies }
{
    let Some(mut connection) = connections.take(slot) else {
        return;
    };
    let turn = connection.take_turn(alloc, desk, routes);
    if turn.stays() {
        connections.put(slot, connection);
    }
}
