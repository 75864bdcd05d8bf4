//! Answers in print.
use faults::{Fault, NoMemory, fault_text};
use std::alloc::Global;

/// A line of a word.
pub(crate) fn line(alloc: Global, word: &str) -> Result<String, NoMemory> {
    let mut text = String::from_str(alloc, word)?;
    text.push('\n')?;
    Ok(text)
}

/// Appends the line of a fault.
pub(crate) fn put_fault<F: Fault>(text: &mut String, fault: F) -> Result<(), NoMemory> {
    text.push_str(fault_text(fault).as_str())
}

/// Appends each byte as a character.
pub(crate) fn put_bytes(text: &mut String, bytes: &[u8]) -> Result<(), NoMemory> {
    for byte in bytes {
        text.push(char::from(*byte))?;
    }
    Ok(())
}
