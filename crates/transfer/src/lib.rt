//! Bytes in and out, over any reader and any writer.
//!
//! - [`read_source`]: all that a reader has, up to a limit
//! - [`Intake`]: bytes that come in piece by piece, and are taken off at the front
//! - [`read_some`]: one read
//! - [`write_whole`]: a whole text, written and flushed
//! - [`TransferFault`]: why no bytes were read; [`RETRIES`]: the number of times that interrupted calls
//!   are made again
//!
//! A call that is interrupted is made again while a retry is left, so each transfer ends, whatever its
//! reader or writer does. Nothing but an interruption is tried again.
//!
//! ```
//! use transfer::{Intake, RETRIES, read_source, write_whole};
//! let mut retries = RETRIES;
//! let mut reader: &[u8] = b"++RELEASE(UJ90101) ERROR REASON(AJ00001).\n";
//! let mut intake = Intake::new(alloc);
//! let count = intake.read_more(&mut reader, 9, &mut retries)?; // one read, of up to 9 bytes
//! intake.take_off(count);
//! let rest = read_source(alloc, &mut reader, 67_108_864, &mut retries)?;
//! let mut written = Vec::new(alloc);
//! write_whole(&mut written, &rest, &mut retries)?;
//! assert_eq!(rt; written.as_slice(), b"(UJ90101) ERROR REASON(AJ00001).\n".as_slice());
//! ```
#![tactic(auto)]

mod fault;
mod intake;
mod reading;
mod retrying;
mod writing;

pub use fault::TransferFault;
pub use intake::Intake;
pub use reading::{RETRIES, read_some, read_source};
pub use writing::write_whole;
