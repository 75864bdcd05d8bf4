//! Connections in memory, one after the other.
ghost use Rattle.std.specs.Prelude.{map, IfErr, IfOk, OnErr};
ghost use Rattle.bureau_http.specs.List.{AreServed, AreServedAs, AreServedInPart, IsOneCut, IsOneServed};
ghost use Rattle.bureau.specs.Kept.{IsKeptRun};
ghost use Rattle.bureau.specs.Runs.{IsLawfulRun};
ghost use Rattle.catalogue.specs.View.{Goes, Tells};

use crate::desk::Desk;
use crate::fault::{ConnFault, RunFault};
use crate::serving::serve_connection;
use bureau::{isolation, repeats};
use faults::NoMemory;
use requests::Routes;
use std::alloc::Global;

/// Serves connections one after the other, each to its end, and returns what it wrote to each.
///
/// A connection that ends inside a request ends only itself.
///
/// # Errors
///
/// [`RunFault::Memory`] if memory runs out, with what was written to the connections before the one in hand,
/// of which perhaps a part was served.
pub fn serve_list<D: Desk>(
    alloc: Global,
    desk: &mut D,
    connections: Vec<Vec<u8>>,
) -> Result<Vec<Vec<u8>>, (RunFault, Vec<Vec<u8>>)>
    ensures goes { Goes D.tables_view desk.old desk.new }
    ensures served { IfOk result (λ written. Tells D.tables_view desk.old desk.new (λ this.
        AreServed (IsLawfulRun D.tables_view desk.old desk.new) this
        (map (λ connection. connection.items) connections.items) (map (λ text. text.items) written.items))) }
    ensures in_part { IfErr result (λ fault. Tells D.tables_view desk.old desk.new (λ this.
        AreServedInPart (IsLawfulRun D.tables_view desk.old desk.new) this
        (map (λ connection. connection.items) connections.items) (map (λ text. text.items) fault.1.items))) }
{
    serve_each(alloc, desk, connections.as_slice())
}

// Serves each connection of a list.
fn serve_each<D: Desk>(
    alloc: Global,
    desk: &mut D,
    connections: &[Vec<u8>],
) -> Result<Vec<Vec<u8>>, (RunFault, Vec<Vec<u8>>)>
    ensures goes { Goes D.tables_view desk.old desk.new }
    ensures served { Tells D.tables_view desk.old desk.new (λ this.
        AreServedAs (IsKeptRun D.tables_view desk.old desk.new) this
        (map (λ connection. connection.items) connections.now) result) }
{
    // These two do nothing. Their contracts are laws that the proof of this contract cites.
    isolation();
    repeats();
    let mut written = Vec::new(alloc);
    let Ok(routes) = Routes::new(alloc) else {
        return Err((RunFault::Memory, written));
    };
    for connection in connections {
        let Ok(text) = replies_to(alloc, desk, &routes, connection.as_slice()) else {
            return Err((RunFault::Memory, written));
        };
        match written.push(text) {
            Ok(()) => {}
            Err(_) => return Err((RunFault::Memory, written)),
        }
    }
    Ok(written)
}

// Serves a connection, and returns what it wrote to it.
fn replies_to<D: Desk>(
    alloc: Global,
    desk: &mut D,
    routes: &Routes,
    bytes: &[u8],
) -> Result<Vec<u8>, NoMemory>
    ensures goes { Goes D.tables_view desk.old desk.new }
    ensures served { IfOk result (λ text. Tells D.tables_view desk.old desk.new (λ this.
        IsOneServed (IsKeptRun D.tables_view desk.old desk.new) this bytes.now text.items)) }
    ensures cut { OnErr result (Tells D.tables_view desk.old desk.new (λ this.
        IsOneCut (IsKeptRun D.tables_view desk.old desk.new) this bytes.now)) }
{
    let mut reader = bytes;
    let mut writer = Vec::new(alloc);
    match serve_connection(alloc, desk, routes, &mut reader, &mut writer) {
        Ok(_) | Err(ConnFault::EndInside) => Ok(writer),
        Err(_) => Err(NoMemory),
    }
}
