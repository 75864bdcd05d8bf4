//! Connections to a desk that knows only the publisher and answers each call with its own name, and to the bureau.
use super::tableless::{Answering, Tableless};
use bureau::{Body, Bureau, Call, Lack, Reply};
use bureau_http::{ConnFault, Desk, serve_one};
use bureau_store::{Caller, ListStore, StoreFault, callers};
use chains::Whole;
use faults::NoMemory;
use questions::Form;
use std::alloc::Global;
use std::io::{Read, Write};
use std::test::Fail;

/// Answers each call of the publisher with what it sends, and fails if it is closed.
#[derive(Drop)]
pub(crate) struct Echo {
    alloc: Global,
    is_closed: bool,
}

impl Echo {
    pub(crate) fn new(alloc: Global) -> Echo {
        let is_closed = false;
        Echo { alloc, is_closed }
    }

    /// The desk with nothing else.
    pub(crate) fn desk(alloc: Global) -> Tableless<Echo> {
        let answering = Echo::new(alloc);
        Tableless { answering }
    }
}

impl Answering for Echo {
    fn found(&mut self, token: &[u8]) -> Result<Option<Caller>, StoreFault> {
        if self.is_closed {
            return Err(StoreFault::Memory);
        }
        if token == b"publisher-token".as_slice() {
            return Ok(Some(Caller::Publisher));
        }
        Ok(None)
    }

    fn told(&mut self, _caller: &Caller, call: &Call<'_>) -> Reply {
        let (status, json, text) = match *call {
            Call::Publish { number: None, .. } => (400, false, b"BAD NUMBER\n".as_slice()),
            Call::Publish { body, .. } => (200, false, body),
            Call::Counts { form: Form::Text } => {
                (200, false, b"PUBLISHED SYSMODS 0 HOLDS 0\n".as_slice())
            }
            Call::Counts { form: Form::Json } => {
                (200, true, b"{\"holds\":0,\"sysmods\":0}".as_slice())
            }
            _ => (403, false, b"NOT ALLOWED\n".as_slice()),
        };
        match Vec::from_slice(self.alloc, text) {
            Ok(bytes) => Reply {
                status,
                json,
                body: Body::from_vec(bytes),
                lack: None,
            },
            Err(_) => Reply::no_room(self.alloc, Lack::Memory),
        }
    }
}

/// The bytes that are written to a connection, and how it ends.
pub(crate) fn served(
    alloc: Global,
    is_closed: bool,
    bytes: &[u8],
) -> Result<(Vec<u8>, Result<u64, ConnFault>), NoMemory> {
    let answering = Echo { alloc, is_closed };
    let mut desk = Tableless { answering };
    let mut reader = bytes;
    let mut writer = Vec::new(alloc);
    let ended = served_by(alloc, &mut desk, &mut reader, &mut writer);
    Ok((writer, ended))
}

/// The number of requests of a connection that this desk serves, or what ends it.
pub(crate) fn served_by<D: Desk, R: Read, W: Write>(
    alloc: Global,
    desk: &mut D,
    reader: &mut R,
    writer: &mut W,
) -> Result<u64, ConnFault> {
    match serve_one(alloc, desk, reader, writer) {
        Ok(served) => Ok(served.requests),
        Err(fault) => Err(fault),
    }
}

/// The same by the desk of the publisher alone.
pub(crate) fn echoed<R: Read, W: Write>(
    alloc: Global,
    reader: &mut R,
    writer: &mut W,
) -> Result<u64, ConnFault> {
    served_by(alloc, &mut Echo::desk(alloc), reader, writer)
}

/// The bureau over a store in memory that begins with the callers of a file and nothing else.
pub(crate) fn bureau_of(alloc: Global, text: &[u8]) -> Result<Bureau<ListStore, Whole>, Fail> {
    let Ok(rows) = callers(alloc, text) else {
        return Err("no callers".into());
    };
    let Ok(store) = ListStore::new(alloc, rows.as_slice()) else {
        return Err("no store".into());
    };
    Ok(Bureau::new(alloc, store, Whole::new()))
}

/// The head line of the one caller that the desk knows.
pub(crate) const TOKEN: &[u8] = b"bureau-token: publisher-token\r\n";

/// A request with these lines and this body.
pub(crate) fn request(
    alloc: Global,
    first: &[u8],
    lines: &[u8],
    body: &[u8],
) -> Result<Vec<u8>, NoMemory> {
    let mut text = Vec::from_slice(alloc, first)?;
    text.extend_from_slice(b" HTTP/1.1\r\n")?;
    text.extend_from_slice(lines)?;
    text.extend_from_slice(b"\r\n")?;
    text.extend_from_slice(body)?;
    Ok(text)
}

/// A request of that caller that asks how much is published.
pub(crate) fn counts(alloc: Global) -> Result<Vec<u8>, NoMemory> {
    request(alloc, b"GET /published", TOKEN, b"")
}

/// The same so many times, one after the other.
pub(crate) fn repeated_counts(alloc: Global, times: u32) -> Result<Vec<u8>, NoMemory> {
    let one = counts(alloc)?;
    let mut text = Vec::new(alloc);
    for _ in 0..times {
        text.extend_from_slice(one.as_slice())?;
    }
    Ok(text)
}
