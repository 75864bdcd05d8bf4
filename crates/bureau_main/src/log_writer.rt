//! Standard error, for the log of a desk.
use std::fs::{self, File, OpenOptions};
use std::io::{self, Write};
use std::os::fd::AsFd;
use std::os::unix::fs::FileTypeExt;
use std::os::unix::net::UnixStream;
use std::rt::Stderr;

// The name of standard error, which follows it to what it is.
const NAME: &str = "/proc/self/fd/2";

/// Standard error, to which the lines of a log are written. No write raises a signal if nobody reads any more.
#[derive(Drop)]
pub(crate) enum LogWriter {
    /// A file, a terminal or another device, which needs no reader.
    Device(Stderr),
    /// A pipe, opened anew for both of its ends.
    Pipe(File),
    /// A socket, such as that of the journal.
    Socket(UnixStream),
}

impl LogWriter {
    /// Standard error as it is now. `None` if it is closed: the file that is opened next may get its descriptor, so
    /// this comes before any file is opened. `None` also if a pipe can't be opened anew.
    pub(crate) fn of_stderr(rt: &HostRuntime) -> Option<LogWriter> {
        let stderr = rt.stderr();
        let Ok(copy) = stderr.as_fd().try_clone_to_owned() else {
            return None;
        };
        match fs::metadata(rt, NAME) {
            Ok(found) if found.file_type().is_socket() => {
                Some(LogWriter::Socket(UnixStream::from(copy)))
            }
            Ok(found) if found.file_type().is_fifo() => match pipe(rt) {
                Ok(pipe) => Some(LogWriter::Pipe(pipe)),
                Err(_) => None,
            },
            _ => Some(LogWriter::Device(stderr)),
        }
    }
}

// Opens the pipe for writing and for reading, so that it has a reader as long as it is open. If it is full, a write
// fails at once: its reader may be gone.
fn pipe(rt: &HostRuntime) -> io::Result<File> {
    let pipe = OpenOptions::new().read(true).write(true).open(rt, NAME)?;
    // The mode is that of the open pipe, which both handles share, so the type of this one does not matter.
    UnixStream::from(pipe.as_fd().try_clone_to_owned()?).set_nonblocking(true)?;
    Ok(pipe)
}

impl Write for LogWriter {
    fn write(&mut self, buf: &[u8]) -> io::Result<usize> {
        match self {
            LogWriter::Device(device) => device.write(buf),
            LogWriter::Pipe(pipe) => pipe.write(buf),
            LogWriter::Socket(socket) => socket.write(buf),
        }
    }

    fn flush(&mut self) -> io::Result<()> {
        Ok(())
    }
}
