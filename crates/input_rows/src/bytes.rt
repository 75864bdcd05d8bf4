//! Bytes that a text stands for.
use std::alloc::Global;
use std::test::Fail;

/// Appends the bytes that a text stands for.
pub(crate) fn put_text(bytes: &mut Vec<u8>, text: &str) -> Result<(), Fail> {
    let (front, rest) = text.split_once('\\').unwrap_or((text, ""));
    bytes.extend_from_slice(front.as_bytes())?;
    if front.len() < text.len() {
        for escape in rest.split('\\') {
            put_escape(bytes, escape.as_bytes())?;
        }
    }
    Ok(())
}

/// The same so many times: `COUNT TEXT`.
pub(crate) fn put_times(bytes: &mut Vec<u8>, rest: &str) -> Result<(), Fail> {
    let (count, text) = rest.split_once(' ').ok_or("times COUNT TEXT")?;
    let unit = bytes_of(*bytes.allocator(), text)?;
    for _ in 0..count.parse::<u32>()? {
        bytes.extend_from_slice(&unit)?;
    }
    Ok(())
}

/// The bytes that a text stands for.
pub(crate) fn bytes_of(alloc: Global, text: &str) -> Result<Vec<u8>, Fail> {
    let mut bytes = Vec::new(alloc);
    put_text(&mut bytes, text)?;
    Ok(bytes)
}

// Appends the bytes of what follows a backslash, up to the next one.
fn put_escape(bytes: &mut Vec<u8>, escape: &[u8]) -> Result<(), Fail> {
    let rest = match escape {
        [b'x', high, low, rest @ ..] => {
            bytes.push(digit(*high).wrapping_mul(16).wrapping_add(digit(*low)))?;
            rest
        }
        [letter, rest @ ..] => {
            bytes.push(control(*letter))?;
            rest
        }
        [] => return Err("nothing stands behind a backslash".into()),
    };
    Ok(bytes.extend_from_slice(rest)?)
}

fn control(letter: u8) -> u8 {
    match letter {
        b'r' => b'\r',
        b'n' => b'\n',
        b't' => b'\t',
        other => other,
    }
}

// A digit, or one of the capitals A to F.
fn digit(letter: u8) -> u8 {
    letter.wrapping_sub(if letter < b'A' { b'0' } else { b'A' - 10 })
}
