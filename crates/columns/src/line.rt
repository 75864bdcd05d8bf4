//! The lines of a text in columns.
ghost use Rattle.std.specs.Prelude.{◌≡◌, ◌++◌, [], ℕ, List, length, drop, take, OnOk};
ghost use Rattle.std.specs.Option.{option_copied};
ghost use Rattle.columns.specs.Columns.{columns_of, texts_of, in_width, width_of, row_of, heading_of, title_line, count_line};

use crate::{Column, NoMemory};
use itoa::Buffer;

/// Appends the title's line to a text, if there is a title.
pub(crate) fn push_title(text: &mut Vec<u8>, title: Option<&[u8]>) -> Result<(), NoMemory>
    ensures { OnOk result (text.new.items ≡ text.old.items ++ title_line (option_copied title.entry)) }
{
    if let Some(title) = title {
        text.extend_from_slice(title)?;
        text.push(b'\n')?;
    }
    Ok(())
}

/// Appends the line with the columns' names to a text.
pub(crate) fn push_heading(text: &mut Vec<u8>, columns: &[Column]) -> Result<(), NoMemory>
    ensures { OnOk result (text.new.items ≡ text.old.items ++ heading_of (columns_of columns.now)) }
{
    let mut columns_left = columns;
    for column in columns {
        push_field(text, width(columns_left), column.name)?;
        columns_left = after_first(columns_left);
    }
    text.push(b'\n')?;
    Ok(())
}

/// Appends a row to a text: each field, with blanks up to the next column, and a line end. If memory runs out, the text
/// may have a part of the line.
pub(crate) fn push_row(
    text: &mut Vec<u8>,
    columns: &[Column],
    fields: &[&[u8]],
) -> Result<(), NoMemory>
    ensures ok { OnOk result
        (text.new.items ≡ text.old.items ++ row_of (columns_of columns.now) (texts_of fields.now)) }
    ensures kept { take (length text.old.items) text.new.items ≡ text.old.items }
{
    text.reserve(row_len(columns, fields))?;
    let mut columns_left = columns;
    for field in fields {
        push_field(text, width(columns_left), field)?;
        columns_left = after_first(columns_left);
    }
    text.push(b'\n')?;
    Ok(())
}

/// Appends the line that counts the rows to a text.
pub(crate) fn push_count(text: &mut Vec<u8>, rows: usize) -> Result<(), NoMemory>
    ensures { OnOk result (text.new.items ≡ text.old.items ++ count_line rows) }
{
    let mut digits = Buffer::new();
    text.extend_from_slice(b"ROWS ")?;
    text.extend_from_slice(digits.format(rows).as_bytes())?;
    text.push(b'\n')?;
    Ok(())
}

// The length of a row whose fields fit their columns, with its line end. Room for it is made at once.
fn row_len(columns: &[Column], fields: &[&[u8]]) -> usize {
    let before_last = columns.last().map_or(0, |column| usize::from(column.start));
    let last = fields.last().map_or(0, |field| field.len());
    before_last.saturating_add(last).saturating_add(1)
}

// The width of the first of these columns. The last one has no width.
fn width(columns: &[Column]) -> u16
    ensures { result ≡ width_of (columns_of columns.now) }
{
    match columns {
        [column, next, ..] => next.start.saturating_sub(column.start),
        _ => 0,
    }
}

fn after_first(columns: &[Column]) -> &[Column]
    ensures { result.now ≡ drop 1 columns.now }
{
    match columns.split_first() {
        Some((_, rest)) => rest,
        None => columns,
    }
}

fn push_field(text: &mut Vec<u8>, width: u16, field: &[u8]) -> Result<(), NoMemory>
    ensures ok { OnOk result (text.new.items ≡ text.old.items ++ in_width width field.now) }
    ensures kept { (before : List ℕ) →
        take (length before) text.old.items ≡ before → take (length before) text.new.items ≡ before }
{
    text.extend_from_slice(field)?;
    let blanks = usize::from(width).saturating_sub(field.len());
    text.resize(text.len() + blanks, b' ')?;
    Ok(())
}
