//! The fronts of a connection's bytes, read in pieces of 1, 2, 3 and 100,000 bytes.
use requests::{Front, read_front};
use std::alloc::Global;
use std::fmt::Write;
use std::test::Fail;
use testing::{Failures, Pieces};
use transfer::{Intake, RETRIES, TransferFault};

/// The front of bytes, for each of the pieces.
pub(crate) fn front_told(alloc: Global, bytes: &[u8]) -> Result<String, Fail> {
    let mut text = String::new(alloc);
    for piece in [1, 2, 3, 100_000] {
        match front_of(alloc, bytes, piece)? {
            Front::Head(count) => write!(text, "a head of {count} bytes\n")?,
            Front::CleanEnd => text.push_str("the end\n")?,
            Front::EndInside => text.push_str("the end inside a head\n")?,
            Front::TooLarge => text.push_str("too large a head\n")?,
        }
    }
    Ok(text)
}

fn front_of(alloc: Global, bytes: &[u8], piece: usize) -> Result<Front, TransferFault> {
    let mut reader = Pieces::new(bytes, piece, Failures::none());
    read_front(&mut Intake::new(alloc), &mut reader, &mut { RETRIES })
}
