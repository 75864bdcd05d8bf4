//! Transfers of so many bytes, whose calls fail.
//!
//! | Command | What is done |
//! |---|---|
//! | `reads COUNT PIECE LIMIT FAILURES KIND` | they are read up to a limit, a piece at a time; the first reads fail in this way |
//! | `writes COUNT PIECE ROOM WRITES FLUSHES KIND` | they are written a piece at a time, while there is room; the first writes and flushes fail so |
//! | `passes COUNT TIMES` | they come in 1,000 at a time, so often, and all but the last 1,000 are taken off each time |
use std::alloc::Global;
use std::io::ErrorKind;
use std::test::Fail;
use testing::{Failures, Pieces, Slow};
use transfer::{Intake, RETRIES, read_source, write_whole};

/// The answer to a transfer, or `None` if the word is none of these.
pub(crate) fn transfer_told(alloc: Global, word: &str, rest: &str) -> Result<Option<String>, Fail> {
    let (numbers, kind) = numbers_in(alloc, rest)?;
    let text = long_text(alloc, numbers.first().copied().unwrap_or(0))?;
    match (word, numbers.as_slice()) {
        ("reads", [_, piece, limit, failures]) => {
            let reader = Pieces::new(&text, *piece, failing(*failures, kind)?);
            Ok(Some(reads_told(alloc, reader, *limit)?))
        }
        ("writes", [_, piece, room, writes, flushes]) => {
            let mut writer = Slow::new(alloc, *piece, *room, failing(*writes, kind)?);
            writer.flushes = failing(*flushes, kind)?;
            Ok(Some(writes_told(alloc, writer, &text)?))
        }
        ("passes", [_, times]) => Ok(Some(passes_told(alloc, &text, *times)?)),
        _ => Ok(None),
    }
}

// The numbers of a command, and the kind of failure after them.
fn numbers_in(alloc: Global, rest: &str) -> Result<(Vec<usize>, ErrorKind), Fail> {
    let mut numbers = Vec::new(alloc);
    let mut kind = ErrorKind::Interrupted;
    for word in rest.split_ascii_whitespace() {
        match word.parse::<usize>() {
            Ok(number) => numbers.push(number)?,
            Err(_) => kind = kind_named(word).ok_or("a kind of failure")?,
        }
    }
    Ok((numbers, kind))
}

static KINDS: [(&str, ErrorKind); 13] = [
    ("Interrupted", ErrorKind::Interrupted),
    ("BrokenPipe", ErrorKind::BrokenPipe),
    ("ConnectionAborted", ErrorKind::ConnectionAborted),
    ("ConnectionReset", ErrorKind::ConnectionReset),
    ("InProgress", ErrorKind::InProgress),
    ("IsADirectory", ErrorKind::IsADirectory),
    ("NotConnected", ErrorKind::NotConnected),
    ("Other", ErrorKind::Other),
    ("OutOfMemory", ErrorKind::OutOfMemory),
    ("StorageFull", ErrorKind::StorageFull),
    ("TimedOut", ErrorKind::TimedOut),
    ("WouldBlock", ErrorKind::WouldBlock),
    ("WriteZero", ErrorKind::WriteZero),
];

fn kind_named(name: &str) -> Option<ErrorKind> {
    for &(word, kind) in &KINDS {
        if word == name {
            return Some(kind);
        }
    }
    None
}

fn failing(count: usize, kind: ErrorKind) -> Result<Failures, Fail> {
    Ok(Failures::first(u32::try_from(count)?, kind))
}

// So many bytes, no two neighbours the same.
fn long_text(alloc: Global, count: usize) -> Result<Vec<u8>, Fail> {
    let mut text = Vec::new(alloc);
    let mut byte = 0u8;
    for _ in 0..count {
        byte = byte.wrapping_add(7);
        text.push(byte)?;
    }
    Ok(text)
}

// The number of bytes that are read, whether each is as the reader gave it, and the number of retries left.
fn reads_told(alloc: Global, reader: Pieces<'_>, limit: usize) -> Result<String, Fail> {
    let (text, mut reader, mut retries) = (reader.rest, reader, RETRIES);
    match read_source(alloc, &mut reader, limit, &mut retries) {
        Ok(source) if text.starts_with(&source) => {
            Ok(format!(in alloc; "{} read, {retries} retries left\n", source.len())?)
        }
        Ok(_) => Ok(format!(in alloc; "others read\n")?),
        Err(_) => Ok(format!(in alloc; "none read, {retries} retries left\n")?),
    }
}

// Whether all is written, the number of bytes that are taken, whether each is as it was given, and the number of
// retries left.
fn writes_told(alloc: Global, writer: Slow, text: &[u8]) -> Result<String, Fail> {
    let (mut writer, mut retries) = (writer, RETRIES);
    let ended = match write_whole(&mut writer, text, &mut retries) {
        Ok(()) => "written",
        Err(_) => "fails",
    };
    let taken = writer.taken.as_slice();
    let are = if text.starts_with(taken) {
        ""
    } else {
        "others "
    };
    Ok(format!(in alloc;
        "{ended}, {are}{} taken, {retries} retries left\n",
        taken.len()
    )?)
}

// Some bytes are always left, so the room is never empty, and yet not much longer than the bytes that are left at once.
fn passes_told(alloc: Global, text: &[u8], times: usize) -> Result<String, Fail> {
    let mut intake = Intake::new(alloc);
    for _ in 0..times {
        pass_through(&mut intake, text)?;
    }
    if intake.into_vec().capacity() <= 131_072 {
        return Ok(format!(in alloc; "room for at most 131072\n")?);
    }
    Ok(format!(in alloc; "room for more\n")?)
}

fn pass_through(intake: &mut Intake, text: &[u8]) -> Result<(), Fail> {
    let mut reader = text;
    for _ in 0..text.len().div_ceil(1_000) {
        intake.read_more(&mut reader, 1_000, &mut { RETRIES })?;
        let off = intake.len().saturating_sub(1_000).min(intake.len());
        intake.take_off(off);
    }
    Ok(())
}
