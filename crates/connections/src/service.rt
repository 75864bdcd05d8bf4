//! Events in order, until the device of the store fails.
ghost use Rattle.std.specs.Prelude.{◌≡◌, ◌∷◌, [], true, false, map, nat_lt};
ghost use Rattle.bureau.specs.Answering.{bureau_view};
ghost use Rattle.connections.specs.Items.{event_of};
ghost use Rattle.connections.specs.Rounds.{Fails, IsStill};
ghost use Rattle.connections.specs.SideBySide.{IsOnward};

use crate::event::Event;
use crate::serving::serve_event;
use crate::slots::Connections;
use bureau::Bureau;
use bureau_store::Store;
use requests::Routes;
use std::alloc::Global;
use verdicts::Judge;

/// Goes through events in order, beside a bureau. After each it looks whether the device of the bureau's store has
/// failed, and then looks at nothing more, whatever connection that is of. It returns whether the device has
/// failed.
pub(crate) fn go_while_open<S: Store, J: Judge<S>>(
    alloc: Global,
    bureau: &mut Bureau<S, J>,
    routes: &Routes,
    connections: &mut Connections,
    events: &[Event],
) -> bool
    ensures onward { result ≡ false → IsOnward (bureau_view S.tables_view J.is_right) bureau.old bureau.new
        (map event_of events.now) connections.old connections.new }
    ensures still { result ≡ false → IsStill (bureau_view S.tables_view J.is_right) bureau.old bureau.new
        (map event_of events.now) }
    ensures fails { result ≡ true → Fails (bureau_view S.tables_view J.is_right) bureau.old bureau.new
        (map event_of events.now) connections.old connections.new }
{
    for event in events {
        if serve_and_look(alloc, bureau, routes, connections, event) {
            return true;
        }
    }
    false
}

// Serves one event. It returns whether the device of the store has failed by then.
fn serve_and_look<S: Store, J: Judge<S>>(
    alloc: Global,
    bureau: &mut Bureau<S, J>,
    routes: &Routes,
    connections: &mut Connections,
    event: &Event,
) -> bool
    ensures onward { IsOnward (bureau_view S.tables_view J.is_right) bureau.old bureau.new
        (event_of event.now ∷ []) connections.old connections.new }
    ensures failed { result ≡ nat_lt 0 ((bureau_view S.tables_view J.is_right).failures bureau.new) }
{
    serve_event(alloc, bureau, routes, connections, event);
    bureau.store().device_failed()
}
