//! The lists of a statement: values between matching parentheses, at any depth.
ghost use Rattle.std.specs.Prelude.{◌≡◌, ◌+◌, ◌^◌, ◌<◌, [], false, Err, Some, None, IfOk, IfErr, MatchOption, length, option_map};
ghost use Rattle.faults.specs.Refusal.{IsRefusal};
ghost use Rattle.mcs_reader.specs.Pieces.{no_name};
ghost use Rattle.mcs_reader.specs.Position.{IsAfter};
ghost use Rattle.mcs_reader.specs.Scan.{on_found, scan, with_list};
ghost use Rattle.mcs_reader.specs.Lists.{GivesValue, HasSoleValue};
ghost use Rattle.mcs_reader.specs.declared.fault.McsFault.TheVariants.{Memory};

use crate::byte::ByteRole;
use crate::cursor::Cursor;
use crate::passing::pass_comment;
use crate::{ListValues, McsFault};

/// The next value of the list, or `None` after the parenthesis that closes it. `depth` counts the
/// parentheses that are open.
#[inline(always)]
pub(crate) fn next_value<'a>(
    cursor: &mut Cursor<'a>,
    depth: &mut usize,
    line: u32,
) -> Result<Option<&'a [u8]>, McsFault>
    requires open { 0 < depth.old }
    requires depth_headroom { depth.old + length cursor.old.text < 2 ^ 64 }

    ensures ok { IfOk result (λ next. MatchOption next
        (scan line depth.old no_name false cursor.old.text
        ≡ on_found (with_list []) (scan line 0 no_name false cursor.new.text))
        (λ value. GivesValue line depth.old cursor.old.text value.now depth.new cursor.new.text)) }
    ensures fault { IfErr result (λ fault. scan line depth.old no_name false cursor.old.text ≡ Err fault) }
    ensures after { IsAfter cursor.new cursor.old }
{
    'bytes: loop {
        let Some(role) = cursor.role() else {
            if cursor.next_line() {
                continue;
            }
            return Err(McsFault::Unbalanced(line));
        };
        match role {
            ByteRole::Gap => {
                cursor.advance();
                cursor.pass_blanks();
            }
            ByteRole::Comment => pass_comment(cursor, line)?,
            ByteRole::Open => {
                cursor.advance();
                *depth += 1;
            }
            ByteRole::Close => {
                cursor.advance();
                *depth -= 1;
                if *depth == 0 {
                    return Ok(None);
                }
            }
            _ => return Ok(Some(cursor.take_value())),
        }
    }
}

/// The values of the list whose opening parenthesis was passed, up to the one that closes it.
pub(crate) fn gather_values<'a>(
    cursor: &mut Cursor<'a>,
    scratch: &mut Vec<&'a [u8]>,
    line: u32,
) -> Result<ListValues<'a>, McsFault>
    requires depth_headroom { length cursor.old.text < 2 ^ 63 }

    ensures ok { IfOk result (λ values. scan line 1 no_name false cursor.old.text
        ≡ on_found (with_list values) (scan line 0 no_name false cursor.new.text)) }
    ensures fault { IfErr result (IsRefusal Memory
        (λ fault. scan line 1 no_name false cursor.old.text ≡ Err fault)) }
    ensures after { IsAfter cursor.new cursor.old }
{
    scratch.clear();
    let mut depth = 1;
    'values: while let Some(value) = next_value(cursor, &mut depth, line)? {
        scratch.push(value)?;
    }
    Ok(ListValues::take_gathered(scratch)?)
}

/// The value of the list whose opening parenthesis was passed, if it has just one.
pub(crate) fn take_sole_value<'a>(
    cursor: &mut Cursor<'a>,
    line: u32,
) -> Result<Option<&'a [u8]>, McsFault>
    requires depth_headroom { length cursor.old.text < 2 ^ 63 }

    ensures ok { IfOk result (λ value.
        HasSoleValue line cursor.old.text (option_map (λ v. v.now) value) cursor.new.text) }
    ensures fault { IfErr result (λ fault. scan line 1 no_name false cursor.old.text ≡ Err fault) }
    ensures after { IsAfter cursor.new cursor.old }
{
    let mut depth = 1;
    let Some(first) = next_value(cursor, &mut depth, line)? else {
        return Ok(None);
    };
    let mut alone = true;
    'others: while let Some(_) = next_value(cursor, &mut depth, line)? {
        alone = false;
    }
    Ok(alone.then_some(first))
}
