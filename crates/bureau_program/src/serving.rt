//! `serve`: a desk whose store is kept in a file.
ghost use Rattle.std.specs.Prelude.{◌≡◌, ◌*◌, IfErr, IfOk, OnOk, None, false, replicate};
ghost use Rattle.std.specs.Io.KnownBytes.{Appends};
ghost use Rattle.run_parts.specs.Outputs.{fault_in, outputs_of};
ghost use Rattle.bureau_program.specs.Program.{IsServe, found_in};
ghost use Rattle.connections.specs.Memory.{IsWithin};
ghost use Rattle.bureau_program.specs.Serving.{IsNewCache, IsNotListening, IsPrepared, IsServeOutput, IsServeRun, IsUnheard, HaltsBy, ServesAll, desk_ends, fault_of_halt, listening_text, session_of, store_ends};
ghost use Rattle.sqlite_wal.specs.Files.{image_at};

use crate::cache::cache_of;
use crate::surroundings::Surroundings;
use bureau::Bureau;
use bureau_sql::SqlStore;
use bureau_store::{Store, StoreFault};
use chain_cache::ChainCache;
use connections::{Connections, Halt, RoundFault, Rounds, serve_rounds};
use faults::AnyFault;
use requests::Routes;
use run_parts::{ProgramFault, numbered_line, printed, told};
use sqlite::{Alter, Connection, Start};
use std::alloc::Global;
use std::io::{ErrorKind, Write};
use store_runs::{Ended, IfMissing, StoreFile, Stores, end, of_store, run_open};

// A mebibyte, in bytes.
const MIB: usize = 1 << 20;

/// The options of `serve`.
#[derive(Clone, Copy, Debug)]
pub struct Service {
    /// The port of 127.0.0.1 where it listens.
    pub port: u16,
    /// The most frames that it keeps.
    pub cache: u32,
    /// The number of connections that it takes.
    pub connections: u32,
    /// The most of them that are open at once.
    pub most_open: u32,
    /// What bodies that come and replies that aren't read take together, beyond a head of each connection, in MiB. One
    /// reply more may come above it.
    pub memory: u32,
    /// Whether a log is kept.
    pub log: bool,
}

/// The parts of a desk beside its store, before anybody comes.
#[derive(Drop)]
pub struct Prepared {
    /// The cache that all callers share.
    pub cache: ChainCache,
    /// A slot for each connection that may be open at once.
    pub connections: Connections,
    /// The paths that there are.
    pub routes: Routes,
}

/// Serves the desk whose store a file has, side by side to so many connections to a port of 127.0.0.1. Prints where it
/// listens, once it does. Returns the exit status, and what is left of the files.
///
/// A fault goes to `errors` alone. After the line there are three: a device that failed, after which nothing more is
/// served; a system that tells no more of connections; and want of memory for the desk itself. Whatever a stop leaves
/// of the files from then on, the next opening finds the store in it, with the tables after the calls of the
/// connections that came.
pub fn run_serve<S: Surroundings, T: Stores, D: Start, W: Write, E: Write>(
    surroundings: &mut S,
    stores: &mut T,
    alloc: Global,
    service: Service,
    store: &str,
    start: D,
    writer: &mut W,
    errors: &mut E,
) -> (u8, Ended<StoreFile<D, T::Place>>)
    ensures { IsServe
        (found_in (S.known_file surroundings.old) (T.asked stores.old) (T.asked stores.new)
        (S.known_port surroundings.old) (S.is_over surroundings.new)
        (S.log surroundings.old) (S.log surroundings.new))
        (image_at D.Start) service store.now
        (outputs_of W.contents E.contents writer.old writer.new errors.old errors.new)
        result.0 result.1 }
{
    match stores.connect(store, IfMissing::Refuse, start) {
        Ok(conn) => {
            let (status, conn) = open_and_serve(surroundings, alloc, service, conn, writer, errors);
            (status, end(conn))
        }
        Err((fault, ended)) => (told(errors, Err(of_store(fault))), ended),
    }
}

/// Serves the desk whose store a connection has, and returns the connection.
pub fn open_and_serve<S: Surroundings, D: Alter + Drop, W: Write, E: Write>(
    surroundings: &mut S,
    alloc: Global,
    service: Service,
    conn: Connection<D>,
    writer: &mut W,
    errors: &mut E,
) -> (u8, Connection<D>)
    requires rest { conn.in_transaction ≡ false }
    ensures { IsServeRun (store_ends D.Store
        (session_of service (S.known_port surroundings.old) (S.is_over surroundings.new)
        (S.log surroundings.old) (S.log surroundings.new)) conn result.1)
        service.port (W.contents writer.old) (W.contents writer.new)
        (E.contents errors.old) (E.contents errors.new) result.0 }
{
    match run_open(alloc, conn, errors) {
        Ok(store) => {
            let (served, store) = serve_store(surroundings, alloc, service, store, writer);
            (told(errors, served), store.into_connection())
        }
        Err(refused) => refused,
    }
}

// Serves a store, and returns it.
fn serve_store<S: Surroundings, D: Alter + Drop, W: Write>(
    surroundings: &mut S,
    alloc: Global,
    service: Service,
    store: SqlStore<D>,
    writer: &mut W,
) -> (Result<(), AnyFault>, SqlStore<D>)
    ensures { IsServeOutput (desk_ends D.Store
        (session_of service (S.known_port surroundings.old) (S.is_over surroundings.new)
        (S.log surroundings.old) (S.log surroundings.new)) store result.1)
        (fault_in result.0) service.port (W.contents writer.old) (W.contents writer.new) }
{
    match announce(surroundings, alloc, service, writer) {
        Ok(prepared) => match serve_in_rounds(
            alloc,
            store,
            prepared,
            surroundings,
            service.connections,
        ) {
            (Ok(()), store) => (Ok(()), store),
            (Err(halt), store) => (Err(fault_of(halt)), store),
        },
        Err(fault) => (Err(fault), store),
    }
}

// The fault for a desk that listened, and serves no more.
fn fault_of(halt: Halt) -> AnyFault
    ensures { result ≡ fault_of_halt halt }
{
    match halt {
        Halt::Device => of_store(StoreFault::Device),
        Halt::Rounds(RoundFault::System) => AnyFault::from(ProgramFault::NotListening),
        Halt::Rounds(RoundFault::Memory) => AnyFault::from(ProgramFault::Memory),
    }
}

// Prepares a desk, listens, and prints where.
fn announce<S: Surroundings, W: Write>(
    surroundings: &mut S,
    alloc: Global,
    service: Service,
    writer: &mut W,
) -> Result<Prepared, AnyFault>
    ensures prepared { IfOk result (IsPrepared service) }
    ensures line { OnOk result (Appends (W.contents writer.old) (W.contents writer.new)
        (listening_text service.port)) }
    ensures port { OnOk result (S.known_port surroundings.old service.port service.most_open service.log) }
    ensures none { S.log surroundings.new ≡ S.log surroundings.old }
    ensures fault { IfErr result (λ fault. IsUnheard fault service.port
        (W.contents writer.old) (W.contents writer.new)) }
{
    let prepared = prepare(surroundings, alloc, service)?;
    match listen_and_tell(surroundings, alloc, service, writer) {
        Ok(()) => Ok(prepared),
        Err(fault) => {
            // Drops it by a call, which is proved once. At the end of the scope each list in it would be dropped here.
            drop(prepared);
            Err(fault)
        }
    }
}

// Listens, and prints where.
fn listen_and_tell<S: Surroundings, W: Write>(
    surroundings: &mut S,
    alloc: Global,
    service: Service,
    writer: &mut W,
) -> Result<(), AnyFault>
    ensures line { OnOk result (Appends (W.contents writer.old) (W.contents writer.new)
        (listening_text service.port)) }
    ensures port { OnOk result (S.known_port surroundings.old service.port service.most_open service.log) }
    ensures none { S.log surroundings.new ≡ S.log surroundings.old }
    ensures fault { IfErr result (λ fault. IsUnheard fault service.port
        (W.contents writer.old) (W.contents writer.new)) }
{
    let line = listening_line(alloc, service.port)?;
    listen(surroundings, alloc, service)?;
    printed(writer, line.as_slice())?;
    Ok(())
}

// Prepares the parts of a desk before anybody comes.
fn prepare<S: Surroundings>(
    surroundings: &S,
    alloc: Global,
    service: Service,
) -> Result<Prepared, AnyFault>
    ensures prepared { IfOk result (IsPrepared service) }
    ensures fault { IfErr result IsNotListening }
{
    // The cache is the largest, and made last: all that stands before a call that may fail is dropped there too.
    let routes = routes(alloc)?;
    let connections = free_slots(alloc, service.most_open, service.memory)?;
    let cache = new_cache(surroundings, alloc, service.cache)?;
    Ok(Prepared {
        cache,
        connections,
        routes,
    })
}

// So many free slots, and a limit of so many MiB for bodies and replies.
fn free_slots(alloc: Global, most_open: u32, memory: u32) -> Result<Connections, AnyFault>
    ensures free { IfOk result (λ connections. connections.slots.items ≡ replicate most_open None) }
    ensures limit { IfOk result (λ connections. connections.shares.limit ≡ memory * 1048576) }
    ensures within { IfOk result IsWithin }
    ensures fault { IfErr result IsNotListening }
{
    match Connections::new(alloc, most_open as usize, memory as usize * MIB) {
        Ok(connections) => Ok(connections),
        Err(_) => Err(AnyFault::from(ProgramFault::Memory)),
    }
}

// The paths that there are.
fn routes(alloc: Global) -> Result<Routes, AnyFault>
    ensures fault { IfErr result IsNotListening }
{
    match Routes::new(alloc) {
        Ok(routes) => Ok(routes),
        Err(_) => Err(AnyFault::from(ProgramFault::Memory)),
    }
}

// An empty cache with room for so many frames, which are looked up by keys that nobody knows.
fn new_cache<S: Surroundings>(
    surroundings: &S,
    alloc: Global,
    capacity: u32,
) -> Result<ChainCache, AnyFault>
    ensures cache { IfOk result (IsNewCache capacity) }
    ensures fault { IfErr result IsNotListening }
{
    match surroundings.random_keys() {
        Ok(keys) => Ok(cache_of(alloc, capacity, keys)?),
        Err(_) => Err(AnyFault::from(ProgramFault::Memory)),
    }
}

// The line that tells where the desk listens.
fn listening_line(alloc: Global, port: u16) -> Result<Vec<u8>, AnyFault>
    ensures text { IfOk result (λ text. text.items ≡ listening_text port) }
    ensures fault { IfErr result IsNotListening }
{
    Ok(numbered_line(alloc, b"LISTENING 127.0.0.1:", u64::from(port))?)
}

fn listen<S: Surroundings>(
    surroundings: &mut S,
    alloc: Global,
    service: Service,
) -> Result<(), AnyFault>
    ensures port { OnOk result (S.known_port surroundings.old service.port service.most_open service.log) }
    ensures none { S.log surroundings.new ≡ S.log surroundings.old }
    ensures fault { IfErr result IsNotListening }
{
    match surroundings.listen(alloc, service.port, service.most_open, service.log) {
        Ok(()) => Ok(()),
        Err(error) if error.kind() == ErrorKind::OutOfMemory => {
            Err(AnyFault::from(ProgramFault::Memory))
        }
        Err(_) => Err(AnyFault::from(ProgramFault::NotListening)),
    }
}

/// Serves so many connections to a desk over a store, side by side, with a cache that all callers share. Returns the
/// store.
///
/// # Errors
///
/// [`Halt::Device`] once the store's device has failed: then it looks at nothing more. [`Halt::Rounds`] if there are no
/// more rounds.
pub fn serve_in_rounds<S: Store, R: Rounds>(
    alloc: Global,
    store: S,
    prepared: Prepared,
    rounds: &mut R,
    count: u32,
) -> (Result<(), Halt>, S)
    ensures served { OnOk result.0 (ServesAll S.tables_view (R.log rounds.old) (R.log rounds.new)
        prepared.connections.slots.items count prepared.cache store result.1) }
    ensures halted { IfErr result.0 (λ halt. HaltsBy S.tables_view (R.log rounds.old) (R.log rounds.new)
        prepared.connections.slots.items count (R.is_over rounds.new) halt prepared.cache store result.1) }
{
    let Prepared {
        cache,
        mut connections,
        routes,
    } = prepared;
    let mut bureau = Bureau::new(alloc, store, cache);
    let served = serve_rounds(alloc, &mut bureau, &routes, &mut connections, rounds, count);
    let (store, cache) = bureau.into_parts();
    // Drops it by a call, which is proved once. At the end of the scope each list in it would be dropped here.
    drop(cache);
    (served, store)
}
