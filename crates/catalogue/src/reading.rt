//! From statements to changes.
ghost use Rattle.std.specs.Prelude.{◌≡◌, ◌++◌, false, List, [], Option, Some, None, is_some, IfOk, OnOk, IfErr};
ghost use Rattle.std.specs.List.{fold};
ghost use Rattle.faults.specs.Refusal.{IsRefusal};
ghost use Rattle.holddata.specs.Statements.{first_of};
ghost use Rattle.mcs_reader.specs.declared.statement.Statement.{Statement};
ghost use Rattle.catalogue.specs.declared.fault.CatFault.TheVariants.{Memory};
ghost use Rattle.catalogue.specs.Opened.{record_opened};
ghost use Rattle.catalogue.specs.Reading.{HeadersOpen, changes_of, first_fault, faults_of, faults_by, Header, More, OnCondition, OnHold, changes_in, nothing_begun, with_part, with_statement};

use crate::header::Open;
use crate::{CatFault, Change, NoMemory, SysmodKind};
use mcs_reader::{Statement, Verb};
use std::alloc::Global;
use std::marker::Model;

/// Reads what statements publish, in order (IBM z/OS SMP/E Reference, `++FUNCTION`, `++PTF`, `++APAR`, `++USERMOD`,
/// `++VER`, `++IF`). Each header gives one record in its place, with the joined lists of all `++VER` and `++IF`
/// statements up to the next header. Holds and releases keep their places.
///
/// # Errors
///
/// The first statement with a fault decides. Of its faults the first of these is told: `VerOutside` if no header stands
/// before a `++VER`; `IfOutside` if none stands before an `++IF`; `IfFmid` if an `++IF` has not just one value of FMID;
/// `BadId` if FMID, PRE, REQ or SUP has a value that is no id; `Held` for a fault of a hold or a release. `Memory` may
/// come in place of any answer.
pub fn read_changes(alloc: Global, statements: &[Statement]) -> Result<Vec<Change>, CatFault>
    ensures changes { IfOk result (λ changes. changes.items ≡ changes_of statements.now) }
    ensures no_fault { OnOk result (first_fault false statements.now ≡ None) }
    ensures fault { IfErr result (IsRefusal Memory (λ fault. first_fault false statements.now ≡ Some fault)) }
{
    let mut reader = ChangeReader::new(alloc);
    for statement in statements {
        reader = reader.take(statement)?;
    }
    Ok(reader.finish()?)
}

/// Reads changes from statements that it takes one at a time; it keeps no statement. A contract sees what was read so
/// far.
#[derive(Drop)]
pub struct ChangeReader {
    alloc: Global,
    before: Vec<Change>,
    header: Option<Open>,
    after: Vec<Change>,
}

impl Model for ChangeReader {
    ghost use Rattle.catalogue.specs.Reading.{Begun};
    ghost use Rattle.catalogue.specs.Opened.{record_opened};

    ghost Value = { Begun };

    ghost view = { λ reader. record {
      before = reader.before.items;
      open_record = record_opened reader.header;
      after = reader.after.items;
    } };
}

impl ChangeReader {
    /// Nothing was read.
    pub fn new(alloc: Global) -> Self
        ensures { result ≡ nothing_begun }
    {
        ChangeReader {
            alloc,
            before: Vec::new(alloc),
            header: None,
            after: Vec::new(alloc),
        }
    }

    /// Takes one more statement (see [`read_changes`]). If it is refused, nothing of what was read is left.
    ///
    /// # Errors
    ///
    /// The fault of this statement, as [`read_changes`] tells it; `Memory` if memory ran out.
    pub fn take(self, statement: &Statement) -> Result<Self, CatFault>
        ensures read { IfOk result (λ now. now ≡ with_statement self statement.now) }
        ensures no_fault { OnOk result (faults_of (is_some self.open_record) statement.now ≡ []) }
        ensures fault { IfErr result (IsRefusal Memory
            (λ fault. first_of (faults_of (is_some self.open_record) statement.now) ≡ Some fault)) }
    {
        match statement.verb {
            Verb::Func => self.begin(SysmodKind::Func, statement),
            Verb::Ptf => self.begin(SysmodKind::Ptf, statement),
            Verb::Apar => self.begin(SysmodKind::Apar, statement),
            Verb::Usermod => self.begin(SysmodKind::Usermod, statement),
            Verb::Ver => self.join(statement),
            Verb::Cond => self.require(statement),
            Verb::Hold | Verb::Release => self.hold(statement),
        }
    }

    /// Returns the changes of all statements that were taken.
    ///
    /// # Errors
    ///
    /// `NoMemory` if memory ran out.
    pub fn finish(self) -> Result<Vec<Change>, NoMemory>
        ensures changes { IfOk result (λ changes. changes.items ≡ changes_in self) }

        // Statements one at a time give what all of them publish.
        ensures law { OnOk result ((statements : List Statement) →
            changes_in (fold with_statement nothing_begun statements) ≡ changes_of statements) }
        ensures headers { OnOk result HeadersOpen }
    {
        Ok(closed(self.alloc, self.before, self.header, self.after)?)
    }

    // A header ends what was read so far.
    fn begin(self, kind: SysmodKind, statement: &Statement) -> Result<Self, CatFault>
        ensures read { IfOk result (λ now. now ≡ with_part (Header kind) statement.now self) }
        ensures no_fault { OnOk result
            (faults_by (Header kind) (is_some self.open_record) statement.now ≡ []) }
        ensures fault { IfErr result (IsRefusal Memory (λ fault.
            first_of (faults_by (Header kind) (is_some self.open_record) statement.now) ≡ Some fault)) }
    {
        let Some(id) = statement.subject else {
            return Err(CatFault::BadId(statement.line));
        };
        let alloc = self.alloc;
        Ok(ChangeReader {
            alloc,
            before: closed(self.alloc, self.before, self.header, self.after)?,
            header: Some(Open::new(alloc, id, kind)),
            after: Vec::new(alloc),
        })
    }

    // A VER belongs to the last header.
    fn join(self, ver: &Statement) -> Result<Self, CatFault>
        ensures read { IfOk result (λ now. now ≡ with_part More ver.now self) }
        ensures no_fault { OnOk result (faults_by More (is_some self.open_record) ver.now ≡ []) }
        ensures fault { IfErr result (IsRefusal Memory
            (λ fault. first_of (faults_by More (is_some self.open_record) ver.now) ≡ Some fault)) }
    {
        let header = self.header.ok_or(CatFault::VerOutside(ver.line))?;
        Ok(ChangeReader {
            alloc: self.alloc,
            before: self.before,
            header: Some(header.with(ver)?),
            after: self.after,
        })
    }

    // An IF belongs to the last header.
    fn require(self, condition: &Statement) -> Result<Self, CatFault>
        ensures read { IfOk result (λ now. now ≡ with_part OnCondition condition.now self) }
        ensures no_fault { OnOk result (faults_by OnCondition (is_some self.open_record) condition.now ≡ []) }
        ensures fault { IfErr result (IsRefusal Memory (λ fault.
            first_of (faults_by OnCondition (is_some self.open_record) condition.now) ≡ Some fault)) }
    {
        let header = self.header.ok_or(CatFault::IfOutside(condition.line))?;
        Ok(ChangeReader {
            alloc: self.alloc,
            before: self.before,
            header: Some(header.under(self.alloc, condition)?),
            after: self.after,
        })
    }

    // A hold or a release comes after what was read.
    fn hold(self, statement: &Statement) -> Result<Self, CatFault>
        ensures read { IfOk result (λ now. now ≡ with_part OnHold statement.now self) }
        ensures no_fault { OnOk result (faults_by OnHold (is_some self.open_record) statement.now ≡ []) }
        ensures fault { IfErr result (IsRefusal Memory
            (λ fault. first_of (faults_by OnHold (is_some self.open_record) statement.now) ≡ Some fault)) }
    {
        let mut after = self.after;
        if let Some(change) = holddata::change(self.alloc, statement)? {
            after.push(Change::OfHold(change))?;
        }
        Ok(ChangeReader {
            alloc: self.alloc,
            before: self.before,
            header: self.header,
            after,
        })
    }
}

// All changes that were read, with the open record in the place of its header.
fn closed(
    alloc: Global,
    before: Vec<Change>,
    header: Option<Open>,
    after: Vec<Change>,
) -> Result<Vec<Change>, NoMemory>
    ensures { IfOk result (λ changes. changes.items
        ≡ changes_in
        (record { before = before.items; open_record = record_opened header; after = after.items })) }
{
    let mut changes = before;
    let mut after = after;
    if let Some(header) = header {
        changes.push(Change::Whole(header.record(alloc)?))?;
    }
    changes.append(&mut after)?;
    Ok(changes)
}
