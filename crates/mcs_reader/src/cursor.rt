//! A position in the text of a source: the joined columns of its lines.
ghost use Rattle.std.specs.Prelude.{◌≡◌, ◌+◌, ◌^◌, ◌<◌, ◌≤◌, [], ◌∷◌, None, Some, Ok, Err, IsSome, IfErr, MatchOption, MatchResult, length, take, drop};
ghost use Rattle.std.specs.Bool.{OnTrue, OnFalse};
ghost use Rattle.std.specs.List.{prefix_len};
ghost use Rattle.mcs_reader.specs.Byte.{is_blank, is_name_byte, line_end};
ghost use Rattle.mcs_reader.specs.Line.{begins_statement as begins_statement_at, text_of};
ghost use Rattle.mcs_reader.specs.Comment.{next_is};
ghost use Rattle.mcs_reader.specs.Position.{HasHeadroom, IsAfter, after_line, role_at, verb_at};
ghost use Rattle.mcs_reader.specs.Run.{begins_value, after_run, after_value, run, value_run};
ghost use Rattle.mcs_reader.specs.Scan.{after_comment, after_raw};
ghost use Rattle.mcs_reader.specs.Segment.{IsLine};

use crate::Verb;
use crate::byte::{ByteRole, is_blank_byte, role_of, stands_in_name, stands_in_value};
use crate::line::{columns_of, split_line};
use std::marker::Model;

/// A contract sees the text from the position on, in which a line end stands after each line's columns,
/// and the line's number. The first line is line 1; before it stands a line end of line 0.
#[derive(Drop)]
pub(crate) struct Cursor<'a> {
    /// The rest of the line's columns.
    columns: &'a [u8],
    /// The lines after this one, as they stand in the source.
    after: &'a [u8],
    line: u32,
}

impl<'a> Model for Cursor<'a> {
    ghost use Rattle.std.specs.Prelude.{◌∷◌, ◌++◌};
    ghost use Rattle.mcs_reader.specs.Byte.{line_end};
    ghost use Rattle.mcs_reader.specs.Line.{text_of};
    ghost use Rattle.mcs_reader.specs.Position.{HasHeadroom, Position};
    ghost use Rattle.mcs_reader.specs.Segment.{IsLine};

    ghost Value = { Position };

    ghost view = { λ c. record { text = c.columns.now ++ line_end ∷ text_of c.after.now; line = c.line } };

    ghost invariant = { λ c. record {
      one_line : IsLine c.columns.now;
      headroom : HasHeadroom (record { text = c.columns.now ++ line_end ∷ text_of c.after.now; line = c.line });
    } };
}

impl<'a> Cursor<'a> {
    /// Before the first line.
    pub(crate) fn new(source: &'a [u8]) -> Self
        requires headroom { HasHeadroom (record { text = line_end ∷ text_of source.now; line = 0 }) }
        ensures text { result.text ≡ line_end ∷ text_of source.now }
        ensures line { result.line ≡ 0 }
    {
        Cursor {
            columns: &[],
            after: source,
            line: 0,
        }
    }

    /// Copies the position.
    pub(crate) fn copy(&self) -> Self
        ensures { result ≡ self.now }
    {
        Cursor {
            columns: self.columns,
            after: self.after,
            line: self.line,
        }
    }

    /// The number of the line, counted from 1.
    pub(crate) fn line(&self) -> u32
        ensures { result ≡ self.now.line }
    {
        self.line
    }

    /// Goes to the beginning of the next line, if there is one.
    #[inline]
    pub(crate) fn next_line(&mut self) -> bool
        ensures text { OnTrue result (self.new.text ≡ after_line self.old.text) }
        ensures line { OnTrue result (self.new.line ≡ self.old.line + 1) }
        ensures more { OnTrue result (0 < length self.new.text) }
        ensures shorter { OnTrue result (length self.new.text < length self.old.text) }
        ensures end { OnFalse result (after_line self.old.text ≡ []) }
        ensures after { IsAfter self.new self.old }
    {
        if self.after.is_empty() {
            return false;
        }
        let (line, after) = split_line(self.after);
        self.columns = columns_of(line);
        self.after = after;
        self.line += 1;
        true
    }

    /// The role of the next byte, or `None` at the line's end.
    #[inline]
    pub(crate) fn role(&self) -> Option<ByteRole>
        ensures { result ≡ role_at self.now.text }
    {
        role_in(self.columns)
    }

    /// Passes the next byte.
    #[inline]
    pub(crate) fn advance(&mut self)
        requires { IsSome (role_at self.old.text) }
        ensures text { self.new.text ≡ drop 1 self.old.text }
        ensures depth_headroom { length self.new.text < 2 ^ 63 }
        ensures after { IsAfter self.new self.old }
    {
        let (_, rest) = self.columns.split_at(1);
        self.columns = rest;
    }

    /// Passes the blanks from here on.
    #[inline]
    pub(crate) fn pass_blanks(&mut self)
        ensures text { self.new.text ≡ after_run is_blank self.old.text }
        ensures after { IsAfter self.new self.old }
    {
        let rest = after_blanks(self.columns);
        self.columns = rest;
    }

    /// Passes the name bytes from here on, and returns them.
    #[inline]
    pub(crate) fn take_name(&mut self) -> &'a [u8]
        ensures name { result.now ≡ run is_name_byte self.old.text }
        ensures text { self.new.text ≡ after_run is_name_byte self.old.text }
        ensures after { IsAfter self.new self.old }
    {
        let (name, rest) = split_name(self.columns);
        self.columns = rest;
        name
    }

    /// Passes the bytes of a value from here on, and returns them.
    #[inline]
    pub(crate) fn take_value(&mut self) -> &'a [u8]
        ensures value { result.now ≡ value_run self.old.text }
        ensures text { self.new.text ≡ after_value self.old.text }
        ensures after { IsAfter self.new self.old }
    {
        let (value, rest) = split_value(self.columns);
        self.columns = rest;
        value
    }

    /// Goes past the `*/` that ends a comment, if the line has one. Else nothing moves.
    pub(crate) fn end_comment(&mut self) -> bool
        ensures text { OnTrue result (after_comment self.old.text ≡ Some self.new.text) }
        ensures none { OnFalse result
            (after_comment self.old.text ≡ after_comment (after_line self.old.text)) }
        ensures unmoved { OnFalse result (self.new ≡ self.old) }
        ensures after { IsAfter self.new self.old }
    {
        match after_comment_in(self.columns) {
            Some(rest) => {
                self.columns = rest;
                true
            }
            None => false,
        }
    }

    /// Goes past the parenthesis that closes a list of COMMENT, if the line has it. Else only `depth`
    /// changes, which counts the parentheses that are open within the list.
    pub(crate) fn end_raw_list(&mut self, depth: &mut usize) -> bool
        requires depth_headroom { depth.old + length self.old.text < 2 ^ 64 }
        ensures text { OnTrue result (after_raw depth.old self.old.text ≡ Ok self.new.text) }
        ensures none { OnFalse result
            (after_raw depth.old self.old.text ≡ after_raw depth.new (after_line self.old.text)) }
        ensures unmoved { OnFalse result (self.new ≡ self.old) }
        ensures no_deeper { OnFalse result
            (depth.new + length (after_line self.old.text) ≤ depth.old + length self.old.text) }
        ensures after { IsAfter self.new self.old }
    {
        match after_raw_in(self.columns, *depth) {
            Ok(rest) => {
                self.columns = rest;
                true
            }
            Err(unclosed) => {
                *depth = unclosed;
                false
            }
        }
    }

    /// Whether `++` stands here.
    #[inline]
    pub(crate) fn begins_statement(&self) -> bool
        ensures { result ≡ begins_statement_at self.now.text }
    {
        has_pluses(self.columns)
    }

    /// Passes `++`, blanks and a verb that is known, at a line's beginning.
    #[inline]
    pub(crate) fn take_verb(&mut self) -> Option<Verb>
        ensures verb { MatchOption result
            (verb_at self.old.text ≡ None)
            (λ verb. verb_at self.old.text ≡ Some (verb, self.new.text)) }
        ensures unmoved { MatchOption result (self.new ≡ self.old) (λ _. self.new.line ≡ self.old.line) }
        ensures after { IsAfter self.new self.old }
    {
        match split_verb(self.columns) {
            Some((verb, rest)) => {
                self.columns = rest;
                Some(verb)
            }
            None => None,
        }
    }
}

/// `++`, blanks and a verb that is known: the verb, and the bytes after it.
#[inline]
#[tactic(auto, unfolding(crate::specs::Position::verb_at))]
fn split_verb(columns: &[u8]) -> Option<(Verb, &[u8])>
    ensures { MatchOption result
        (verb_at columns.now ≡ None)
        (λ found. verb_at columns.now ≡ Some (found.0, found.1.now)) }
{
    if !has_pluses(columns) {
        return None;
    }
    let (_, head) = columns.split_at(2);
    let (name, rest) = split_name(after_blanks(head));
    match Verb::by_name(name) {
        Some(verb) => Some((verb, rest)),
        None => None,
    }
}

#[inline]
fn has_pluses(columns: &[u8]) -> bool
    ensures { result ≡ begins_statement_at columns.now }
{
    columns.len() >= 2 && columns[0] == b'+' && columns[1] == b'+'
}

#[inline]
#[tactic(auto, using(crate::proofs::PositionFacts::take_run, crate::proofs::PositionFacts::drop_run))]
fn after_blanks(columns: &[u8]) -> &[u8]
    ensures { result.now ≡ after_run is_blank columns.now }
{
    let (_, rest) = columns.split_at(blank_len(columns));
    rest
}

#[inline]
#[tactic(auto, using(crate::proofs::PositionFacts::take_run, crate::proofs::PositionFacts::drop_run))]
fn split_name(columns: &[u8]) -> (&[u8], &[u8])
    ensures name { result.0.now ≡ run is_name_byte columns.now }
    ensures rest { result.1.now ≡ after_run is_name_byte columns.now }
{
    columns.split_at(name_len(columns))
}

#[inline]
fn split_value(columns: &[u8]) -> (&[u8], &[u8])
    ensures value { result.0.now ≡ value_run columns.now }
    ensures rest { result.1.now ≡ after_value columns.now }
{
    columns.split_at(value_len(columns))
}

/// The role of the first byte of a line's rest.
#[inline]
fn role_in(columns: &[u8]) -> Option<ByteRole>
    requires { IsLine columns.now }
    ensures { result ≡ role_at columns.now }
{
    let (first, rest) = columns.split_first()?;
    if *first == b'/' && begins_with(rest, b'*') {
        return Some(ByteRole::Comment);
    }
    Some(role_of(*first))
}

#[inline]
fn begins_with(columns: &[u8], b: u8) -> bool
    ensures { result ≡ next_is b columns.now }
{
    !columns.is_empty() && columns[0] == b
}

/// The bytes after the first `*/`.
fn after_comment_in(columns: &[u8]) -> Option<&[u8]>
    ensures { MatchOption result
        (after_comment columns.now ≡ None)
        (λ rest. after_comment columns.now ≡ Some rest.now) }
{
    let mut left = columns;
    'bytes: while let Some((first, rest)) = left.split_first() {
        if *first == b'*' && begins_with(rest, b'/') {
            let (_, after) = rest.split_at(1);
            return Some(after);
        }
        left = rest;
    }
    None
}

/// The bytes after the parenthesis that closes a list of COMMENT, in which `depth` more are open; or the number that
/// are open at the line's end.
fn after_raw_in(columns: &[u8], depth: usize) -> Result<&[u8], usize>
    requires { depth + length columns.now < 2 ^ 64 }
    ensures after { MatchResult result
        (λ rest. after_raw depth columns.now ≡ Ok rest.now)
        (λ unclosed. after_raw depth columns.now ≡ Err unclosed) }
    ensures no_deeper { IfErr result (λ unclosed. unclosed ≤ depth + length columns.now) }
{
    let mut left = columns;
    let mut depth = depth;
    'bytes: while let Some((first, rest)) = left.split_first() {
        left = rest;
        match *first {
            b'(' => depth += 1,
            b')' => {
                if depth == 0 {
                    return Ok(rest);
                }
                depth -= 1;
            }
            _ => {}
        }
    }
    Err(depth)
}

#[inline]
fn blank_len(columns: &[u8]) -> usize
    ensures run { result ≡ prefix_len is_blank columns.now }
    ensures within { result ≤ length columns.now }
{
    columns.iter().take_while(|b| is_blank_byte(**b)).count()
}

#[inline]
fn name_len(columns: &[u8]) -> usize
    ensures run { result ≡ prefix_len is_name_byte columns.now }
    ensures within { result ≤ length columns.now }
{
    columns.iter().take_while(|b| stands_in_name(**b)).count()
}

/// The number of bytes of the value at the beginning. A comment ends a value.
#[inline]
fn value_len(columns: &[u8]) -> usize
    ensures value { take result columns.now ≡ value_run columns.now }
    ensures rest { drop result columns.now ≡ after_value columns.now }
    ensures within { result ≤ length columns.now }
{
    let mut len = 0;
    'bytes: while len < columns.len() && goes_on(columns, len) {
        len += 1;
    }
    len
}

/// Whether a value has the byte at this position.
#[inline]
fn goes_on(columns: &[u8], at: usize) -> bool
    requires { at < length columns.now }
    ensures { result ≡ begins_value (drop at columns.now) }
{
    let (_, rest) = columns.split_at(at);
    stands_in_value(rest[0]) && !(rest[0] == b'/' && rest.len() > 1 && rest[1] == b'*')
}
