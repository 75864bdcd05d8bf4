//! A change whose reply was lost.
use super::echo::{bureau_of, request, served_by};
use bureau_http::{ConnFault, Desk};
use std::alloc::Global;
use std::io::{self, ErrorKind, Write};
use std::process::Abort;
use std::test::Fail;
use testing::assert_equal;

const CALLERS: &[u8] = b"NAME,TOKEN\nPUBLISH,publisher-token\nALPHA,alpha-token\n";

const FOUND: &[u8] = b"HTTP/1.1 200 OK\r\n";

// A writer that takes nothing.
#[derive(Drop)]
struct Closed;

impl Write for Closed {
    fn write(&mut self, _buf: &[u8]) -> io::Result<usize> {
        Err(io::Error::from(ErrorKind::BrokenPipe))
    }

    fn flush(&mut self) -> io::Result<()> {
        Ok(())
    }
}

// Sends a change whose reply can't be written.
fn assert_lost<D: Desk>(alloc: Global, desk: &mut D) -> Result<(), Fail> {
    let put = request(
        alloc,
        b"PUT /zones/TGT1",
        b"bureau-token: alpha-token\r\nbureau-number: 1\r\ncontent-length: 45\r\n",
        b"SYSMOD,STATE\nHBB7790,APPLIED\nUA10001,APPLIED\n",
    )?;
    let mut reader = put.as_slice();
    let lost = served_by(alloc, desk, &mut reader, &mut Closed);
    assert_equal(lost, Err(ConnFault::Write))
}

// Sends the change once more, without its body, and checks that it has the reply that was lost.
fn assert_made<D: Desk>(rt: &impl Abort, alloc: Global, desk: &mut D) -> Result<(), Fail> {
    let again = request(
        alloc,
        b"PUT /zones/TGT1",
        b"bureau-token: alpha-token\r\nbureau-number: 1\r\ncontent-length: 0\r\n",
        b"",
    )?;
    let mut reader = again.as_slice();
    let mut written = Vec::new(alloc);
    let told = served_by(alloc, desk, &mut reader, &mut written);
    assert_equal(told, Ok(1))?;
    assert!(rt; written.starts_with(FOUND));
    assert!(rt; written.ends_with(b"\r\n\r\nZONE TGT1 ROWS 2\n"));
    Ok(())
}

#[test]
fn a_change_whose_reply_was_lost_counts_as_made(rt: HostRuntime) -> Result<(), Fail> {
    let mut bureau = bureau_of(rt.alloc(), CALLERS)?;
    assert_lost(rt.alloc(), &mut bureau)?;
    assert_made(&rt, rt.alloc(), &mut bureau)
}
