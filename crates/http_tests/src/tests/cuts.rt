//! Bytes that are cut anywhere, as they come in and as they go out.
use super::echo::{TOKEN, echoed, request, served};
use bureau_http::ConnFault;
use faults::NoMemory;
use std::alloc::Global;
use std::process::Abort;
use std::test::Fail;
use testing::{Failures, Pieces, Slow, assert_equal, assert_equal_at};

fn publish(alloc: Global) -> Result<Vec<u8>, NoMemory> {
    request(
        alloc,
        b"POST /publish",
        b"bureau-token: publisher-token\r\nbureau-number: 1\r\ncontent-length: 7\r\n",
        b"++PTF\r\n",
    )
}

// This request after two empty lines, one more, which closes the connection, and four bytes.
fn two_requests(alloc: Global, publish: &[u8]) -> Result<Vec<u8>, NoMemory> {
    let mut text = Vec::from_slice(alloc, b"\r\n\n")?;
    text.extend_from_slice(publish)?;
    text.extend_from_slice(b"\r\nGET /published HTTP/1.0\n")?;
    text.extend_from_slice(TOKEN)?;
    text.extend_from_slice(b"\nmore")?;
    Ok(text)
}

// The replies to both, with no byte cut off.
fn whole_replies(alloc: Global, text: &[u8]) -> Result<Vec<u8>, Fail> {
    let (whole, ended) = served(alloc, false, text)?;
    assert_equal(ended, Ok(2))?;
    Ok(whole)
}

// Checks that the first bytes of both have the replies to the requests that are whole in them.
fn assert_cut(
    rt: &impl Abort,
    alloc: Global,
    front: &[u8],
    publish: &[u8],
    whole: &[u8],
) -> Result<(), Fail> {
    let cut = front.len();
    let (written, ended) = served(alloc, false, front)?;
    let count = if cut < 3 + publish.len() { 0 } else { 1 };
    let is_between = cut < 4 && cut != 1
        || count == 1 && (cut == 3 + publish.len() || cut == 5 + publish.len());
    let wanted = if is_between {
        Ok(count)
    } else {
        Err(ConnFault::EndInside)
    };
    assert_equal_at(cut, ended, wanted)?;
    assert!(rt; whole.starts_with(written.as_slice()), "{cut:?}");
    assert_equal_at(cut, written.is_empty(), count == 0)
}

#[test]
fn a_connection_is_cut_anywhere(rt: HostRuntime) -> Result<(), Fail> {
    let publish = publish(rt.alloc())?;
    let text = two_requests(rt.alloc(), publish.as_slice())?;
    let whole = whole_replies(rt.alloc(), text.as_slice())?;
    for cut in 0..text.len().saturating_sub(4) {
        let front = &text[..cut];
        assert_cut(&rt, rt.alloc(), front, publish.as_slice(), whole.as_slice())?;
    }
    Ok(())
}

// Checks reads of one byte that are interrupted so often, while writes take five bytes.
fn assert_interrupted(
    alloc: Global,
    text: &[u8],
    whole: &[u8],
    interruptions: u32,
) -> Result<(), Fail> {
    let mut reader = Pieces::new(text, 1, Failures::interruptions(interruptions));
    let mut writer = Slow::new(alloc, 5, whole.len(), Failures::none());
    let ended = echoed(alloc, &mut reader, &mut writer);
    let (wanted, taken) = if interruptions <= 64 {
        (Ok(2), whole)
    } else {
        (Err(ConnFault::Read), b"".as_slice())
    };
    assert_equal_at(interruptions, ended, wanted)?;
    assert_equal_at(interruptions, writer.taken.as_slice(), taken)
}

// Checks writes that take five bytes while there is room for as many.
fn assert_no_room(alloc: Global, text: &[u8], whole: &[u8], room: usize) -> Result<(), Fail> {
    let mut reader = text;
    let mut writer = Slow::new(alloc, 5, room, Failures::none());
    let ended = echoed(alloc, &mut reader, &mut writer);
    assert_equal_at(room, ended, Err(ConnFault::Write))?;
    assert_equal_at(room, whole.starts_with(writer.taken.as_slice()), true)?;
    assert_equal_at(room, writer.taken.len(), room)
}

#[test]
fn reads_and_writes_are_cut_anywhere(rt: HostRuntime) -> Result<(), Fail> {
    let text = two_requests(rt.alloc(), publish(rt.alloc())?.as_slice())?;
    let whole = whole_replies(rt.alloc(), text.as_slice())?;
    for interruptions in [0u32, 64, 65] {
        assert_interrupted(rt.alloc(), text.as_slice(), whole.as_slice(), interruptions)?;
    }
    for room in [0usize, 1, 92, 93] {
        assert_no_room(rt.alloc(), text.as_slice(), whole.as_slice(), room)?;
    }
    Ok(())
}
