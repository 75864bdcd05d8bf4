//! One read and one write, and what came of each.
ghost use Rattle.std.specs.Prelude.{◌<◌, length};
ghost use Rattle.std.specs.Io.KnownBytes.{Keeps};
ghost use Rattle.socket_desk.specs.Transfers.{IsRead, IsStopped, IsWritten};

use crate::stream::Stream;
use connections::Event;
use std::alloc::Global;
use std::io::{self, ErrorKind};

/// What came of one read or one write.
#[derive(Drop)]
pub(crate) enum Transfer {
    /// This came, or went.
    Done(Event),
    /// The system would make it wait.
    Waits,
    /// It was interrupted, and is to be made again.
    Interrupted,
    /// It failed.
    Failed,
}

impl Transfer {
    // That of a read or a write that ended with this error.
    pub(crate) fn stopped(error: &io::Error) -> Transfer
        ensures { IsStopped result }
    {
        match error.kind() {
            ErrorKind::WouldBlock => Transfer::Waits,
            ErrorKind::Interrupted => Transfer::Interrupted,
            _ => Transfer::Failed,
        }
    }
}

/// Reads once over the connection in a slot, as many bytes as there is room for. If there is no memory for them, the read
/// has failed, and they are lost.
pub(crate) fn read_once<T: Stream>(
    alloc: Global,
    stream: &mut T,
    slot: usize,
    room: &mut [u8],
) -> Transfer
    requires { 0 < length room.old }
    ensures read { IsRead slot (T.left stream.old) (T.left stream.new) result }
    ensures written { Keeps (T.written stream.old) (T.written stream.new) }
{
    let count = match stream.receive(room) {
        Ok(count) => count,
        Err(error) => return Transfer::stopped(&error),
    };
    if count == 0 {
        return Transfer::Done(Event::Ended(slot));
    }
    match Vec::from_slice(alloc, &room[..count]) {
        Ok(text) => Transfer::Done(Event::Bytes(slot, text)),
        Err(_) => Transfer::Failed,
    }
}

/// Writes once, from what has to go out over the connection in a slot. A write that takes no byte has failed.
pub(crate) fn write_once<T: Stream>(stream: &mut T, slot: usize, text: &[u8]) -> Transfer
    ensures written { IsWritten slot text.now (T.written stream.old) (T.written stream.new) result }
    ensures left { Keeps (T.left stream.old) (T.left stream.new) }
{
    match stream.send(text) {
        Ok(0) => Transfer::Failed,
        Ok(count) => Transfer::Done(Event::Wrote(slot, count)),
        Err(error) => Transfer::stopped(&error),
    }
}
