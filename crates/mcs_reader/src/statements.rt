//! A source, statement by statement.
ghost use Rattle.std.specs.Prelude.{◌≡◌, false, [], Ok, Err, IfOk, IfErr, OnOk, OnErr, IsOk, MatchOption, length};
ghost use Rattle.faults.specs.Refusal.{IsRefusal};
ghost use Rattle.mcs_reader.specs.Asking.{reading_asking};
ghost use Rattle.mcs_reader.specs.Bytes.{bytes_of_each};
ghost use Rattle.mcs_reader.specs.Gathered.{GivesNextFor, States, reading_for};
ghost use Rattle.mcs_reader.specs.Pieces.{a_name};
ghost use Rattle.mcs_reader.specs.Position.{IsAfter};
ghost use Rattle.mcs_reader.specs.ReadLines.{read_after};
ghost use Rattle.mcs_reader.specs.Reading.{HasOneOutcome, IsFirstFault};
ghost use Rattle.mcs_reader.specs.ReadingOf.{reading_of};
ghost use Rattle.mcs_reader.specs.Scan.{scan, stated};
ghost use Rattle.mcs_reader.specs.Unread.{GivesStatement, IsRead};
ghost use Rattle.mcs_reader.specs.declared.fault.McsFault.TheVariants.{Memory};

use crate::asked::Asked;
use crate::cursor::Cursor;
use crate::operand::{gather_operands, pass_subject};
use crate::scratch::Scratch;
use crate::source::MOST_BYTES;
use crate::{McsFault, Statement, Verb};
use std::alloc::Global;
use std::marker::Model;

/// The statements of a source, one after the other, of which none is kept.
///
/// A contract sees the reading of the part that is left, and its number of bytes. A source is read as
/// [`read`](crate::read) reads it only if its end is reached. If a statement has a fault, the statements before it
/// were no reading of the source.
#[derive(Drop)]
pub struct Statements<'a> {
    cursor: Cursor<'a>,
    scratch: Scratch<'a>,
    asked: Asked<'a>,
}

impl<'a> Model for Statements<'a> {
    ghost use Rattle.std.specs.Prelude.{length};
    ghost use Rattle.mcs_reader.specs.Gathered.{reading_for};
    ghost use Rattle.mcs_reader.specs.ReadLines.{read_after};
    ghost use Rattle.mcs_reader.specs.Unread.{Unread};

    ghost Value = { Unread };

    ghost view = { λ s. record { reading = reading_for s.asked (read_after s.cursor); bytes = length s.cursor.text } };
}

impl<'a> Statements<'a> {
    /// All statements of a source.
    ///
    /// # Errors
    ///
    /// [`McsFault::TooLong`] if the source has more than [`MOST_BYTES`](crate::MOST_BYTES) bytes.
    pub fn new(alloc: Global, source: &'a [u8]) -> Result<Self, McsFault>
        ensures reading { IfOk result (λ statements. IsRead source.now statements.reading) }
        ensures fault { IfErr result (λ fault. IsFirstFault source.now fault) }
        ensures one_outcome { HasOneOutcome source.now }
        ensures outcome { IsRead source.now (reading_of source.now) }
        ensures ok { IfOk result (λ statements. statements.reading ≡ reading_of source.now) }
        ensures refusal { IfErr result (λ fault. reading_of source.now ≡ Err fault) }
    {
        Statements::begin(alloc, source, Asked::All)
    }

    /// All statements of a source, each with only those operands that have one of these names, without regard to ASCII
    /// case. Names and values of the other operands take no memory.
    ///
    /// # Errors
    ///
    /// [`McsFault::TooLong`] if the source has more than [`MOST_BYTES`](crate::MOST_BYTES) bytes.
    pub fn asking(alloc: Global, source: &'a [u8], names: &'a [&'a [u8]]) -> Result<Self, McsFault>
        ensures fault { IfErr result (λ fault. IsFirstFault source.now fault) }
        ensures one_outcome { HasOneOutcome source.now }
        ensures outcome { IsRead source.now (reading_of source.now) }
        ensures ok { IfOk result (λ statements.
            statements.reading ≡ reading_asking (bytes_of_each names.now) (reading_of source.now)) }
        ensures refusal { IfErr result (λ fault. reading_of source.now ≡ Err fault) }
    {
        Statements::begin(alloc, source, Asked::Named(names))
    }

    fn begin(alloc: Global, source: &'a [u8], asked: Asked<'a>) -> Result<Self, McsFault>
        ensures fault { IfErr result (λ fault. IsFirstFault source.now fault) }
        ensures one_outcome { HasOneOutcome source.now }
        ensures outcome { IsRead source.now (reading_of source.now) }
        ensures ok { IfOk result (λ statements.
            statements.reading ≡ reading_for asked.entry (reading_of source.now)) }
        ensures refusal { IfErr result (λ fault. reading_of source.now ≡ Err fault) }
    {
        if source.len() > MOST_BYTES {
            return Err(McsFault::TooLong);
        }
        Ok(Statements {
            cursor: Cursor::new(source),
            scratch: Scratch::new(alloc),
            asked,
        })
    }

    /// Reads the next statement, or `None` at the end of the source. What is left stays as it was then.
    ///
    /// # Errors
    ///
    /// The statement's fault, or [`McsFault::Memory`]. What is left stays as it was, so the next call answers the same
    /// if memory doesn't run out.
    pub fn next(&mut self) -> Result<Option<Statement<'a>>, McsFault>
        ensures next { IfOk result (λ next. MatchOption next
            (self.old.reading ≡ Ok [])
            (λ statement. GivesStatement self.old statement self.new)) }
        ensures fault { IfErr result (IsRefusal Memory (λ fault. self.old.reading ≡ Err fault)) }
        ensures end { IfOk result (λ next. MatchOption next (self.new ≡ self.old) (λ _. Unit)) }
        ensures err { OnErr result (self.new ≡ self.old) }
    {
        let mut cursor = self.cursor.copy();
        let next = next_statement(&mut cursor, &mut self.scratch, self.asked)?;
        if next.is_some() {
            self.cursor = cursor;
        }
        Ok(next)
    }

    /// Reads what is left and keeps none of it.
    ///
    /// # Errors
    ///
    /// The first fault of what is left, or [`McsFault::Memory`].
    pub fn finish(self) -> Result<(), McsFault>
        ensures ok { OnOk result (IsOk self.entry.reading) }
        ensures fault { IfErr result (IsRefusal Memory (λ fault. self.entry.reading ≡ Err fault)) }
    {
        let mut left = self;
        'left: while let Some(_) = left.next()? {}
        Ok(())
    }
}

/// The statement that begins on the next line that names a verb, if one does.
fn next_statement<'a>(
    cursor: &mut Cursor<'a>,
    scratch: &mut Scratch<'a>,
    asked: Asked<'_>,
) -> Result<Option<Statement<'a>>, McsFault>
    ensures ok { IfOk result (λ next. MatchOption next
        (read_after cursor.old ≡ Ok [])
        (λ statement. GivesNextFor asked.entry cursor.old statement cursor.new)) }
    ensures fault { IfErr result (IsRefusal Memory (λ fault. read_after cursor.old ≡ Err fault)) }
    ensures after { IsAfter cursor.new cursor.old }
{
    'lines: while cursor.next_line() {
        if let Some(verb) = cursor.take_verb() {
            return Ok(Some(read_statement(cursor, scratch, asked, verb)?));
        }
    }
    Ok(None)
}

/// The statement whose verb was passed, up to its period.
fn read_statement<'a>(
    cursor: &mut Cursor<'a>,
    scratch: &mut Scratch<'a>,
    asked: Asked<'_>,
    verb: Verb,
) -> Result<Statement<'a>, McsFault>
    ensures ok { IfOk result (λ statement.
        States asked.entry
        (stated verb cursor.old.line (scan cursor.old.line 0 a_name false cursor.old.text))
        statement cursor.new.text) }
    ensures fault { IfErr result (IsRefusal Memory (λ fault.
        stated verb cursor.old.line (scan cursor.old.line 0 a_name false cursor.old.text) ≡ Err fault)) }
    ensures after { IsAfter cursor.new cursor.old }
{
    let line = cursor.line();
    let subject = pass_subject(cursor, verb, line)?;
    let operands = gather_operands(cursor, scratch, asked, line)?;
    let Some(subject) = subject else {
        return Err(McsFault::BadVerbSubject(line));
    };
    Ok(Statement {
        verb,
        subject,
        operands,
        line,
    })
}
