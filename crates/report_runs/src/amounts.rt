//! The line that tells how much was read for a report.
ghost use Rattle.std.specs.Prelude.{◌≡◌, ◌++◌, ◌∷◌, OnOk, IfOk};
ghost use Rattle.report_runs.specs.Amounts.{counted, grouped, mark_before, read_line};

use faults::NoMemory;
use file_reports::Counts;
use itoa::Buffer;
use std::alloc::Global;

/// The line that tells how much was read of so many files: `read 20,000 SYSMODs, 1 hold from 2 files`.
pub(crate) fn read_text(alloc: Global, counts: Counts, files: usize) -> Result<Vec<u8>, NoMemory>
    ensures { IfOk result (λ text. text.items ≡ read_line counts files) }
{
    let mut text = Vec::new(alloc);
    text.extend_from_slice(b"read ")?;
    push_counted(&mut text, counts.sysmods, b"SYSMOD")?;
    text.extend_from_slice(b", ")?;
    push_counted(&mut text, counts.holds, b"hold")?;
    text.extend_from_slice(b" from ")?;
    push_counted(&mut text, files, b"file")?;
    text.extend_from_slice(b"\n")?;
    Ok(text)
}

// Adds so many of something.
fn push_counted(text: &mut Vec<u8>, number: usize, noun: &[u8]) -> Result<(), NoMemory>
    ensures { OnOk result (text.new.items ≡ text.old.items ++ counted number noun.now) }
{
    push_grouped(text, Buffer::new().format(number).as_bytes())?;
    text.extend_from_slice(b" ")?;
    text.extend_from_slice(noun)?;
    if number != 1 {
        text.extend_from_slice(b"s")?;
    }
    Ok(())
}

// Adds digits with commas between.
fn push_grouped(text: &mut Vec<u8>, digits: &[u8]) -> Result<(), NoMemory>
    ensures { OnOk result (text.new.items ≡ text.old.items ++ grouped digits.now) }
{
    let mut left = digits;
    'digits: while let Some((digit, more)) = left.split_first() {
        push_digit(text, *digit, more.len())?;
        left = more;
    }
    Ok(())
}

// Adds a digit before so many others.
fn push_digit(text: &mut Vec<u8>, digit: u8, left: usize) -> Result<(), NoMemory>
    ensures { OnOk result (text.new.items ≡ text.old.items ++ (digit ∷ mark_before left)) }
{
    text.push(digit)?;
    if left != 0 && left % 3 == 0 {
        text.push(b',')?;
    }
    Ok(())
}
