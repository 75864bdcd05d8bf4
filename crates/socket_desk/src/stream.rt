//! The stream of a connection.
ghost use Rattle.std.specs.Prelude.{ℕ, List, Option};
ghost use Rattle.std.specs.Io.{ReadsAtMost, WritesAtMost};
ghost use Rattle.std.specs.Io.KnownBytes.{Keeps, ReadConsumes, WriteAppends};

use mio::net::TcpStream;
use std::io::{self, Read, Write};
use std::net::Shutdown;

/// A stream of bytes, over which no read and no write waits.
///
/// Of the system's own streams nothing is known of their bytes. Others may know all of them. So a proof about every stream
/// says what is told of its bytes, and what is written to it.
pub(crate) trait Stream: Drop {
    /// The bytes that are still to be read, as far as they are known.
    ghost left: { Self → Option (List ℕ) };

    /// All bytes that were written, as far as they are known.
    ghost written: { Self → Option (List ℕ) };

    /// Reads what lies there, as far as there is room. At the end of the stream there is nothing.
    fn receive(&mut self, room: &mut [u8]) -> io::Result<usize>
        ensures bound { ReadsAtMost result room.new }
        ensures reads { ReadConsumes (left self.old) (left self.new) result room.new }
        ensures keeps { Keeps (written self.old) (written self.new) };

    /// Reads what lies there, as far as there is room, and leaves it there.
    fn look(&self, room: &mut [u8]) -> io::Result<usize>
        ensures bound { ReadsAtMost result room.new };

    /// Writes what goes out at once, from the beginning of a text.
    fn send(&mut self, text: &[u8]) -> io::Result<usize>
        ensures bound { WritesAtMost result text.now }
        ensures writes { WriteAppends (written self.old) (written self.new) result text.now }
        ensures keeps { Keeps (left self.old) (left self.new) };

    /// Ends its writing side.
    fn end(&mut self)
        ensures reads { Keeps (left self.old) (left self.new) }
        ensures writes { Keeps (written self.old) (written self.new) };
}

impl Stream for TcpStream {
    ghost use Rattle.std.specs.Prelude.{None};

    ghost left = { λ _. None };

    ghost written = { λ _. None };

    fn receive(&mut self, room: &mut [u8]) -> io::Result<usize> {
        self.read(room)
    }

    fn look(&self, room: &mut [u8]) -> io::Result<usize> {
        self.peek(room)
    }

    fn send(&mut self, text: &[u8]) -> io::Result<usize> {
        self.write(text)
    }

    fn end(&mut self) {
        let _ = self.shutdown(Shutdown::Write);
    }
}
