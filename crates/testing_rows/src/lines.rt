//! Lines that stand for many, and answers that are cut down.
use std::alloc::Global;
use std::fmt::Write;
use std::test::Fail;

/// Appends the lines for which `each FIRST LAST TEXT` stands to a text; `rest` is what follows the word. Returns
/// whether it could.
pub(crate) fn put_each(lines: &mut String, rest: &str) -> Result<bool, Fail> {
    let (first, rest) = rest.split_once(' ').unwrap_or((rest, ""));
    let (last, text) = rest.split_once(' ').unwrap_or((rest, ""));
    match (first.parse::<u32>(), last.parse::<u32>()) {
        (Ok(first), Ok(last)) => put_numbers(lines, first, last, text),
        _ => Ok(false),
    }
}

fn put_numbers(lines: &mut String, first: u32, last: u32, text: &str) -> Result<bool, Fail> {
    for number in first..=last {
        put_numbered(lines, text, number)?;
    }
    Ok(!text.is_empty())
}

fn put_numbered(lines: &mut String, text: &str, number: u32) -> Result<(), Fail> {
    for letter in text.chars() {
        match letter {
            '%' => write!(lines, "{number:05}")?,
            '&' => write!(lines, "{:05}", number.saturating_add(1))?,
            '|' => lines.push('\n')?,
            other => lines.push(other)?,
        }
    }
    Ok(lines.push('\n')?)
}

/// An answer with each of its lines cut down to its first three words, the last one, and the number of words.
pub(crate) fn brief(alloc: Global, answer: &str) -> Result<String, Fail> {
    let mut text = String::new(alloc);
    for line in answer.lines() {
        put_brief(&mut text, line)?;
    }
    Ok(text)
}

fn put_brief(text: &mut String, line: &str) -> Result<(), Fail> {
    for word in line.split_ascii_whitespace().take(3) {
        text.push_str(word)?;
        text.push(' ')?;
    }
    put_end(text, line)
}

fn put_end(text: &mut String, line: &str) -> Result<(), Fail> {
    let last = line.split_ascii_whitespace().last().unwrap_or("");
    let count = line.split_ascii_whitespace().count();
    write!(text, ".. {last}, {count} words\n")?;
    Ok(())
}
