//! The parts of a statement that are passed over: comments, and the lists of operands COMMENT.
ghost use Rattle.std.specs.Prelude.{◌≡◌, ◌^◌, ◌<◌, Ok, Some, None, OnOk, IfErr, IsErr, length, drop};
ghost use Rattle.mcs_reader.specs.Position.{IsAfter, role_at};
ghost use Rattle.mcs_reader.specs.Scan.{after_comment, after_raw};
ghost use Rattle.mcs_reader.specs.declared.byte.ByteRole.TheVariants.{Comment};
ghost use Rattle.mcs_reader.specs.declared.fault.McsFault.TheVariants.{Unbalanced};

use crate::McsFault;
use crate::cursor::Cursor;

/// Goes past the comment that begins here.
pub(crate) fn pass_comment(cursor: &mut Cursor<'_>, line: u32) -> Result<(), McsFault>
    requires begins { role_at cursor.old.text ≡ Some Comment }

    ensures ok { OnOk result (after_comment (drop 2 cursor.old.text) ≡ Some cursor.new.text) }
    ensures shorter { OnOk result (length cursor.new.text < length cursor.old.text) }
    ensures fault { IfErr result (λ fault.
        (fault ≡ Unbalanced line) × (after_comment (drop 2 cursor.old.text) ≡ None)) }
    ensures after { IsAfter cursor.new cursor.old }
{
    cursor.advance();
    cursor.advance(); // The star too: `/*/` ends no comment.
    'lines: loop {
        if cursor.end_comment() {
            return Ok(());
        }
        if !cursor.next_line() {
            return Err(McsFault::Unbalanced(line));
        }
    }
}

/// Goes past the list of COMMENT whose opening parenthesis was passed. Only its parentheses count.
pub(crate) fn pass_raw_list(cursor: &mut Cursor<'_>, line: u32) -> Result<(), McsFault>
    requires depth_headroom { length cursor.old.text < 2 ^ 63 }

    ensures ok { OnOk result (after_raw 0 cursor.old.text ≡ Ok cursor.new.text) }
    ensures fault { IfErr result (λ fault. (fault ≡ Unbalanced line) × IsErr (after_raw 0 cursor.old.text)) }
    ensures after { IsAfter cursor.new cursor.old }
{
    let mut depth = 0;
    'lines: loop {
        if cursor.end_raw_list(&mut depth) {
            return Ok(());
        }
        if !cursor.next_line() {
            return Err(McsFault::Unbalanced(line));
        }
    }
}
