//! The operands of a statement: names, each with the list that may follow it.
ghost use Rattle.std.specs.Prelude.{◌≡◌, ◌≢◌, ◌^◌, ◌<◌, [], ◌∷◌, ℕ, List, true, false, Ok, Err, Some, None, IfOk, IfErr, OnOk, length, option_map};
ghost use Rattle.faults.specs.Refusal.{IsRefusal};
ghost use Rattle.mcs_reader.specs.Lists.{HasSubject, OpensList};
ghost use Rattle.mcs_reader.specs.Gathered.{GathersOperand, HasOperands, PassesList};
ghost use Rattle.mcs_reader.specs.Operand.{operand_texts};
ghost use Rattle.mcs_reader.specs.Pieces.{Before, a_name, named_before, is_comment_name, no_name};
ghost use Rattle.mcs_reader.specs.Position.{IsAfter, role_at};
ghost use Rattle.mcs_reader.specs.Scan.{on_found, scan, with_list_after, with_name, with_operands};
ghost use Rattle.mcs_reader.specs.StatementText.{sole, subject_alone as subject_alone_of, subject_by as subject_by_list};
ghost use Rattle.mcs_reader.specs.declared.byte.ByteRole.TheVariants.{Gap, Comment, Name};
ghost use Rattle.mcs_reader.specs.declared.fault.McsFault.TheVariants.{Memory};

use crate::asked::Asked;
use crate::byte::ByteRole;
use crate::cursor::Cursor;
use crate::list::{gather_values, take_sole_value};
use crate::passing::{pass_comment, pass_raw_list};
use crate::scratch::{Scratch, take_gathered};
use crate::{Id, ListValues, McsFault, Operand, Operands, Verb};

/// Goes to the next byte after gaps and comments, and returns its role.
fn skip_gap(cursor: &mut Cursor<'_>, line: u32) -> Result<ByteRole, McsFault>
    ensures role { IfOk result (λ role. role_at cursor.new.text ≡ Some role) }
    ensures no_gap { IfOk result (λ role. role ≢ Gap) }
    ensures no_comment { IfOk result (λ role. role ≢ Comment) }
    ensures ok { OnOk result ((before : Before) →
        scan line 0 before false cursor.old.text ≡ scan line 0 before false cursor.new.text) }
    ensures fault { IfErr result (λ fault. (before : Before) →
        scan line 0 before false cursor.old.text ≡ Err fault) }
    ensures after { IsAfter cursor.new cursor.old }
{
    'gap: loop {
        let Some(role) = cursor.role() else {
            if !cursor.next_line() || cursor.begins_statement() {
                return Err(McsFault::NoPeriod(line));
            }
            continue;
        };
        match role {
            ByteRole::Gap => {
                cursor.advance();
                cursor.pass_blanks();
            }
            ByteRole::Comment => pass_comment(cursor, line)?,
            _ => return Ok(role),
        }
    }
}

/// Passes the parenthesis that opens a list, gaps and comments aside, if one stands here.
fn enter_list(cursor: &mut Cursor<'_>, line: u32) -> Result<bool, McsFault>
    ensures list { IfOk result (λ opened. opened ≡ true → OpensList line cursor.old.text cursor.new.text) }
    ensures none { IfOk result (λ opened. opened ≡ false → (before : Before) →
        scan line 0 before false cursor.old.text ≡ scan line 0 no_name false cursor.new.text) }
    ensures depth_headroom { IfOk result (λ opened. opened ≡ true → length cursor.new.text < 2 ^ 63) }
    ensures fault { IfErr result (λ fault. (before : Before) →
        scan line 0 before false cursor.old.text ≡ Err fault) }
    ensures after { IsAfter cursor.new cursor.old }
{
    match skip_gap(cursor, line)? {
        ByteRole::Open => {
            cursor.advance();
            Ok(true)
        }
        _ => Ok(false),
    }
}

/// The list that follows a name, gaps and comments aside, if one does.
fn take_list<'a>(
    cursor: &mut Cursor<'a>,
    scratch: &mut Vec<&'a [u8]>,
    name: &[u8],
    line: u32,
) -> Result<Option<ListValues<'a>>, McsFault>
    ensures ok { IfOk result (λ list. scan line 0 (named_before name.now) false cursor.old.text
        ≡ with_list_after list (scan line 0 no_name false cursor.new.text)) }
    ensures fault { IfErr result (IsRefusal Memory
        (λ fault. scan line 0 (named_before name.now) false cursor.old.text ≡ Err fault)) }
    ensures after { IsAfter cursor.new cursor.old }
{
    if !enter_list(cursor, line)? {
        return Ok(None);
    }
    if is_comment(name) {
        pass_raw_list(cursor, line)?;
        Ok(Some(ListValues::from_vec(Vec::new(*scratch.allocator()))))
    } else {
        Ok(Some(gather_values(cursor, scratch, line)?))
    }
}

/// Whether an operand of this name is a COMMENT.
#[tactic(auto, unfolding(crate::specs::Pieces::is_comment_name))]
fn is_comment(name: &[u8]) -> bool
    ensures { result ≡ is_comment_name name.now }
{
    name.eq_ignore_ascii_case(b"COMMENT")
}

/// The subject that a verb has by the list after it, if the list is as the verb wants it.
pub(crate) fn pass_subject(
    cursor: &mut Cursor<'_>,
    verb: Verb,
    line: u32,
) -> Result<Option<Option<Id>>, McsFault>
    ensures ok { IfOk result (λ subject. HasSubject verb line cursor.old.text subject cursor.new.text) }
    ensures fault { IfErr result (λ fault. scan line 0 a_name false cursor.old.text ≡ Err fault) }
    ensures after { IsAfter cursor.new cursor.old }
{
    if enter_list(cursor, line)? {
        let value = take_sole_value(cursor, line)?;
        Ok(subject_by(verb, value))
    } else {
        Ok(subject_alone(verb))
    }
}

/// The subject of a statement without a list.
fn subject_alone(verb: Verb) -> Option<Option<Id>>
    ensures { result ≡ subject_alone_of verb }
{
    match verb {
        Verb::Hold
        | Verb::Release
        | Verb::Func
        | Verb::Ptf
        | Verb::Apar
        | Verb::Usermod
        | Verb::Ver => None,
        Verb::Cond => Some(None),
    }
}

/// The subject by a list that has this value alone, or none or several.
fn subject_by(verb: Verb, value: Option<&[u8]>) -> Option<Option<Id>>
    ensures { (values : List (List ℕ)) →
        option_map (λ v. v.now) value.entry ≡ sole values → result ≡ subject_by_list verb values }
{
    match verb {
        Verb::Hold | Verb::Release | Verb::Func | Verb::Ptf | Verb::Apar | Verb::Usermod => {
            Some(Some(Id::new(value?)?))
        }
        Verb::Ver => Some(None),
        Verb::Cond => None,
    }
}

/// The values of the list that follows a name; none if no list does.
fn take_values<'a>(
    cursor: &mut Cursor<'a>,
    scratch: &mut Vec<&'a [u8]>,
    name: &[u8],
    line: u32,
) -> Result<ListValues<'a>, McsFault>
    ensures ok { IfOk result (λ values.
        on_found (with_name name.now) (scan line 0 (named_before name.now) false cursor.old.text)
        ≡ on_found (with_operands (record { name = name.now; values = values } ∷ []))
        (scan line 0 no_name false cursor.new.text)) }
    ensures fault { IfErr result (IsRefusal Memory
        (λ fault. scan line 0 (named_before name.now) false cursor.old.text ≡ Err fault)) }
    ensures after { IsAfter cursor.new cursor.old }
{
    Ok(match take_list(cursor, scratch, name, line)? {
        Some(values) => values,
        None => ListValues::from_vec(Vec::new(*scratch.allocator())),
    })
}

/// Passes the list that follows a name, gaps and comments aside, if one does.
fn pass_list(cursor: &mut Cursor<'_>, name: &[u8], line: u32) -> Result<(), McsFault>
    ensures ok { OnOk result (PassesList line name.now cursor.old.text cursor.new.text) }
    ensures fault { IfErr result (λ fault.
        scan line 0 (named_before name.now) false cursor.old.text ≡ Err fault) }
    ensures after { IsAfter cursor.new cursor.old }
{
    if !enter_list(cursor, line)? {
        return Ok(());
    }
    if is_comment(name) {
        pass_raw_list(cursor, line)?;
    } else {
        take_sole_value(cursor, line)?;
    }
    Ok(())
}

/// The operand whose name begins here: it is gathered if it is asked for, and passed over if not.
fn gather_operand<'a>(
    cursor: &mut Cursor<'a>,
    scratch: &mut Scratch<'a>,
    asked: Asked<'_>,
    line: u32,
) -> Result<(), McsFault>
    requires name { role_at cursor.old.text ≡ Some Name }

    ensures ok { OnOk result (GathersOperand asked.entry line cursor.old.text
        (operand_texts scratch.old.operands.items) (operand_texts scratch.new.operands.items) cursor.new.text) }
    ensures shorter { OnOk result (length cursor.new.text < length cursor.old.text) }
    ensures fault { IfErr result (IsRefusal Memory
        (λ fault. scan line 0 no_name false cursor.old.text ≡ Err fault)) }
    ensures after { IsAfter cursor.new cursor.old }
{
    let name = cursor.take_name();
    if asked.asks_for(name) {
        let values = take_values(cursor, &mut scratch.values, name, line)?;
        scratch.operands.push(Operand { name, values })?;
    } else {
        pass_list(cursor, name, line)?;
    }
    Ok(())
}

/// The operands that are asked for, up to the period, which is passed.
pub(crate) fn gather_operands<'a>(
    cursor: &mut Cursor<'a>,
    scratch: &mut Scratch<'a>,
    asked: Asked<'_>,
    line: u32,
) -> Result<Operands<'a>, McsFault>
    ensures ok { IfOk result (λ operands.
        HasOperands asked.entry line cursor.old.text operands cursor.new.text) }
    ensures fault { IfErr result (IsRefusal Memory
        (λ fault. scan line 0 no_name false cursor.old.text ≡ Err fault)) }
    ensures after { IsAfter cursor.new cursor.old }
{
    scratch.operands.clear();
    'names: loop {
        match skip_gap(cursor, line)? {
            ByteRole::Name => gather_operand(cursor, scratch, asked, line)?,
            ByteRole::Period => {
                cursor.advance();
                return Ok(Operands::from_vec(take_gathered(&mut scratch.operands)?));
            }
            ByteRole::Close => return Err(McsFault::Unbalanced(line)),
            _ => return Err(McsFault::BadByte(line)),
        }
    }
}
