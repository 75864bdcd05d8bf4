//! Connections over a store in memory.
ghost use Rattle.std.specs.Prelude.{◌≡◌, map, Ok, IfErr, IfOk};
ghost use Rattle.bureau.specs.Joint.{IsRun};
ghost use Rattle.bureau_store.specs.Callers.{callers_of};
ghost use Rattle.bureau_store.specs.Lists.{IsOurs, tables_of};
ghost use Rattle.bureau_store.specs.Tables.{opened};
ghost use Rattle.bureau_store.specs.declared.caller.CallerRow.{CallerRow};
ghost use Rattle.catalogue.specs.Content.{Content};
ghost use Rattle.bureau_http.specs.List.{AreServed};
ghost use Rattle.bureau_http.specs.Replay.{IsOutOfMemory, IsReplayFault, IsReplayed};

use crate::list::serve_list;
use bureau::Bureau;
use bureau_store::{CallerRow, ListStore, callers};
use faults::AnyFault;
use std::alloc::Global;
use verdicts::Judge;

/// Serves connections one after the other over a store in memory that begins with the callers of a file and nothing
/// else. It returns what it wrote to each. The contract says what that is if the judge is right for every content:
/// a judge that keeps nothing is, and so is a new one.
///
/// # Errors
///
/// The fault of the callers file; or memory ran out.
pub fn replay<J: Judge<ListStore> + Drop>(
    alloc: Global,
    judge: J,
    text: &[u8],
    connections: Vec<Vec<u8>>,
) -> Result<Vec<Vec<u8>>, AnyFault>
    ensures replayed { ((content : Content) → J.is_right judge content)
        → IfOk result (λ written. IsReplayed text.now
        (map (λ connection. connection.items) connections.items) (map (λ text. text.items) written.items)) }
    ensures refused { IfErr result (IsReplayFault text.now) }
{
    let rows = callers_in(alloc, text)?;
    serve_rows(alloc, judge, rows.as_slice(), connections)
}

// The callers of a file.
fn callers_in(alloc: Global, text: &[u8]) -> Result<Vec<CallerRow>, AnyFault>
    ensures rows { IfOk result (λ rows. callers_of text.now ≡ Ok rows.items) }
    ensures refused { IfErr result (IsReplayFault text.now) }
{
    Ok(callers(alloc, text)?)
}

// Serves connections with these callers, and returns what it wrote to each.
fn serve_rows<J: Judge<ListStore> + Drop>(
    alloc: Global,
    judge: J,
    rows: &[CallerRow],
    connections: Vec<Vec<u8>>,
) -> Result<Vec<Vec<u8>>, AnyFault>
    ensures served { ((content : Content) → J.is_right judge content)
        → IfOk result (λ written. AreServed IsRun (opened rows.now)
        (map (λ connection. connection.items) connections.items) (map (λ text. text.items) written.items)) }
    ensures memory { IfErr result IsOutOfMemory }
{
    let store = ListStore::new(alloc, rows)?;
    serve_store(alloc, judge, store, connections)
}

// Serves connections over a store, and returns what it wrote to each.
fn serve_store<J: Judge<ListStore> + Drop>(
    alloc: Global,
    judge: J,
    store: ListStore,
    connections: Vec<Vec<u8>>,
) -> Result<Vec<Vec<u8>>, AnyFault>
    requires { IsOurs store }
    ensures served { ((content : Content) → J.is_right judge content)
        → IfOk result (λ written. AreServed IsRun (tables_of store)
        (map (λ connection. connection.items) connections.items) (map (λ text. text.items) written.items)) }
    ensures memory { IfErr result IsOutOfMemory }
{
    let mut bureau = Bureau::new(alloc, store, judge);
    match serve_list(alloc, &mut bureau, connections) {
        Ok(written) => Ok(written),
        Err((fault, _)) => Err(AnyFault::from(fault)),
    }
}
