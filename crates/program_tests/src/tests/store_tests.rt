//! A desk over a store in files in memory: connections that pass, rounds that fail, and sockets.
ghost use Rattle.std.specs.Prelude.{◌≡◌, IfOk, IsTrue, false};
ghost use Rattle.sqlite_disk.specs.Memory.{memory_is_usable};

use super::desk_tests::CALLERS;
use super::surroundings::{Around, PortHas};
use bureau_program::{Service, Surroundings, open_and_serve};
use connections::RoundFault;
use socket_desk::{Patience, SocketRounds};
use sqlite::{Alter, Connection, FileStore, Files, Options};
use sqlite_disk::Memory;
use std::alloc::Global;
use std::hash::RandomState;
use std::io::{Read, Write};
use std::net::{Ipv4Addr, SocketAddr, TcpStream};
use std::str;
use std::test::Fail;
use std::time::Duration;
use store_runs::run_init;
use testing::{Ticking, assert_equal, assert_equal_at};

// A connection to the file that is kept in memory, with an empty log.
fn connected(alloc: Global, db: Memory) -> Result<Connection<FileStore<Memory>>, Fail>
    requires { IsTrue (memory_is_usable db) }
    ensures { IfOk result (λ conn. conn.in_transaction ≡ false) }
{
    let log = Memory::new(alloc);
    match Connection::open_files(alloc, Files { log, db }, Options::new(1)) {
        Ok(conn) => Ok(conn),
        Err(_) => Err("a connection".into()),
    }
}

// A connection to a new file.
pub(super) fn fresh(alloc: Global) -> Result<Connection<FileStore<Memory>>, Fail>
    ensures { IfOk result (λ conn. conn.in_transaction ≡ false) }
{
    connected(alloc, Memory::new(alloc))
}

// A status, and the texts on standard output and standard error.
fn told(alloc: Global, status: u8, output: &[u8], errors: &[u8]) -> Result<String, Fail> {
    let output = str::from_utf8(output).ok().ok_or("a text")?;
    let errors = str::from_utf8(errors).ok().ok_or("a text")?;
    Ok(format!(in alloc; "{status} {output}{errors}")?)
}

// The output of `init`.
fn init<S: Alter>(alloc: Global, conn: &mut Connection<S>, callers: &[u8]) -> Result<String, Fail>
    requires { conn.old.in_transaction ≡ false }
    ensures { conn.new.in_transaction ≡ false }
{
    let (mut output, mut errors) = (Vec::new(alloc), Vec::new(alloc));
    let status = run_init(alloc, conn, callers, &mut output, &mut errors);
    told(alloc, status, &output, &errors)
}

// The output of `serve` over a new store in this file, with so many connections, and its text on a fault.
pub(super) fn served<U: Surroundings, S: Alter + Drop>(
    around: &mut U,
    alloc: Global,
    conn: Connection<S>,
    connections: u32,
) -> Result<(String, Vec<u8>), Fail>
    requires { conn.in_transaction ≡ false }
{
    let mut conn = conn;
    init(alloc, &mut conn, CALLERS)?;
    let service = Service {
        port: 4_711,
        cache: 1,
        connections,
        most_open: 2,
        memory: 64,
        log: true,
    };
    let (mut output, mut errors) = (Vec::new(alloc), Vec::new(alloc));
    let (status, _) = open_and_serve(around, alloc, service, conn, &mut output, &mut errors);
    let none = Vec::new(alloc);
    Ok((told(alloc, status, &output, &none)?, errors))
}

pub(super) const LISTENING: &str = "0 LISTENING 127.0.0.1:4711\n";

#[test]
fn a_desk_serves_as_many_as_it_is_asked_to(rt: HostRuntime) -> Result<(), Fail> {
    let alloc = rt.alloc();
    let keys = RandomState::new(&rt)?;
    // most, and more than fit in 16 bits
    for connections in [0, 1, 65_537, 1_000_000] {
        let mut around = Around::listening(PortHas::Passers(0), keys);
        let (told, errors) = served(&mut around, alloc, fresh(alloc)?, connections)?;
        assert_equal_at(connections, told.as_str(), LISTENING)?;
        assert_equal_at(connections, errors.len(), 0)?;
        assert_equal_at(connections, around.asked, (4_711, 2, true))?;
        let passed = match &around.port_has {
            PortHas::Passers(passed) => *passed,
            _ => 0,
        };
        assert_equal_at(connections, passed, u64::from(connections))?;
    }
    Ok(())
}

#[test]
fn a_desk_stops_where_nothing_more_is_told(rt: HostRuntime) -> Result<(), Fail> {
    let alloc = rt.alloc();
    let keys = RandomState::new(&rt)?;
    for (fault, wanted) in [
        (RoundFault::System, b"FAULT 73\n"),
        (RoundFault::Memory, b"FAULT 74\n"),
    ] {
        let mut around = Around::listening(PortHas::Fault(fault), keys);
        let (told, errors) = served(&mut around, alloc, fresh(alloc)?, 1)?;
        assert_equal(told.as_str(), "3 LISTENING 127.0.0.1:4711\n")?;
        assert_equal(errors.as_slice(), wanted.as_slice())?;
    }
    Ok(())
}

const UNKNOWN: &[u8] =
    b"HTTP/1.1 401 Unauthorized\r\ncontent-type: text/plain\r\ncontent-length: 14\r\nwww-authenticate: Bureau\r\n\r\nUNKNOWN TOKEN\n";

// This text so many times.
fn repeated(alloc: Global, text: &[u8], times: u32) -> Result<Vec<u8>, Fail> {
    let mut all = Vec::new(alloc);
    for _ in 0..times {
        all.extend_from_slice(text)?;
    }
    Ok(all)
}

// Checks that a client gets this, and then its end.
fn assert_received(alloc: Global, client: &mut TcpStream, wanted: &[u8]) -> Result<(), Fail> {
    let mut got = Vec::new(alloc);
    client.read_to_end(&mut got)?;
    assert_equal(str::from_utf8(got.as_slice()), str::from_utf8(wanted))
}

// The number of lines of a log that have this after the time, and before the last word.
fn lines_with(log: &[u8], wanted: &str) -> Result<u32, Fail> {
    let mut count = 0u32;
    for line in str::from_utf8(log)?.lines() {
        let (_, rest) = line.split_once(' ').ok_or("a time")?;
        let (shown, _) = rest.rsplit_once(' ').ok_or("a last word")?;
        if shown == wanted {
            count = count.saturating_add(1);
        }
    }
    Ok(count)
}

// The usual patience of a desk to which all time counts, however long it is between two looks.
fn hasty() -> Patience {
    let mut patience = Patience::usual();
    patience.step = Duration::MAX;
    patience
}

// Two clients, of which one sends half of a head and no more. None closes its side. By the desk's clock five seconds
// pass at each look. A round with a log has two looks, so it needs no minute to let them go.
#[test]
fn a_desk_answers_beside_a_silent_client_and_lets_both_go(rt: HostRuntime) -> Result<(), Fail> {
    let alloc = rt.alloc();
    let keys = RandomState::new(&rt)?;
    let clock = Ticking::new(5);
    let address = SocketAddr::from((Ipv4Addr::LOCALHOST, 0u16));
    let (patience, log) = (hasty(), Some(Vec::new(alloc)));
    let Ok(sockets) = SocketRounds::new(&rt, alloc, &clock, address, 2, patience, log) else {
        return Err("no sockets".into());
    };
    let mut silent = TcpStream::connect(&rt, sockets.address()?)?;
    silent.write_all(b"GET /zones HT")?;
    let mut client = TcpStream::connect(&rt, sockets.address()?)?;
    let sent = repeated(alloc, b"GET /zones HTTP/1.1\r\n\r\n", 8)?;
    client.write_all(sent.as_slice())?;
    let mut around = Around::listening(PortHas::Sockets(sockets), keys);
    let (told, errors) = served(&mut around, alloc, fresh(alloc)?, 2)?;
    assert_equal(told.as_str(), LISTENING)?;
    assert_equal(errors.len(), 0)?;
    let wanted = repeated(alloc, UNKNOWN, 8)?;
    assert_received(alloc, &mut client, wanted.as_slice())?;
    assert_received(alloc, &mut silent, b"")?;
    assert_logged(&around)
}

// Each of the eight requests has its line, and so has the client that was let go.
fn assert_logged(around: &Around<'_>) -> Result<(), Fail> {
    let log = match &around.port_has {
        PortHas::Sockets(sockets) => sockets.log(),
        _ => None,
    };
    let log = log.ok_or("a log")?.as_slice();
    assert_equal(lines_with(log, "- GET /zones 401 23 115")?, 8)?;
    assert_equal(lines_with(log, "- FAULT")?, 1)?;
    assert_equal(str::from_utf8(log)?.lines().count(), 9)
}
