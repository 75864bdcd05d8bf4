//! Gathering what the statements of a publication publish, one at a time.
ghost use Rattle.std.specs.Prelude.{◌≡◌, Bool, true, false, Some, [], is_some, IfOk, OnOk, IfErr};
ghost use Rattle.faults.specs.Refusal.{IsRefusal};
ghost use Rattle.holddata.specs.Statements.{first_of};
ghost use Rattle.catalogue.specs.Content.{Content};
ghost use Rattle.catalogue.specs.Reading.{Begun, changes_in, faults_of, is_header, nothing_begun, part_of, with_statement};
ghost use Rattle.catalogue.specs.declared.fault.CatFault.TheVariants.{Memory};
ghost use Rattle.file_reports.specs.Gathering.{IsGathered, IsWith, belongs, is_of_hold};

use catalogue::{CatFault, ChangeReader};
use flat_content::Gathered;
use mcs_reader::{Statement, Verb};
use std::alloc::Global;

/// What was gathered so far, and the record of the last header, as far as it was read. A hold is gathered at once: no
/// record depends on it, and it depends on none.
#[derive(Drop)]
pub(crate) struct Reading {
    pub(crate) gathered: Gathered,
    pub(crate) header: ChangeReader,
}

impl Reading {
    /// Nothing of a publication was read.
    pub(crate) fn new(alloc: Global, gathered: Gathered) -> Self
        ensures { IsGathered gathered nothing_begun result }
    {
        Reading {
            gathered,
            header: ChangeReader::new(alloc),
        }
    }

    /// Takes one more statement. A header closes the record before it.
    ///
    /// # Errors
    ///
    /// The fault of this statement; `Memory` if memory ran out.
    pub(crate) fn take(self, alloc: Global, statement: &Statement) -> Result<Self, CatFault>
        ensures read { IfOk result (λ now. (old : Content) (all : Begun) →
            IsGathered old all self → IsGathered old (with_statement all statement.now) now) }
        ensures no_fault { OnOk result
            (faults_of (is_some self.header.open_record) statement.now ≡ []) }
        ensures fault { IfErr result (IsRefusal Memory (λ fault.
            first_of (faults_of (is_some self.header.open_record) statement.now) ≡ Some fault)) }
    {
        match statement.verb {
            Verb::Func | Verb::Ptf | Verb::Apar | Verb::Usermod => self.begin(alloc, statement),
            Verb::Ver | Verb::Cond => self.join(statement),
            Verb::Hold | Verb::Release => self.hold(alloc, statement),
        }
    }

    // A header closes the open record.
    fn begin(self, alloc: Global, statement: &Statement) -> Result<Self, CatFault>
        requires { is_header (part_of statement.now) ≡ true }
        ensures read { IfOk result (λ now. (old : Content) (all : Begun) →
            IsGathered old all self → IsGathered old (with_statement all statement.now) now) }
        ensures no_fault { OnOk result ((begun : Bool) → faults_of begun statement.now ≡ []) }
        ensures fault { IfErr result (IsRefusal Memory
            (λ fault. (begun : Bool) → first_of (faults_of begun statement.now) ≡ Some fault)) }
    {
        let header = alone(alloc, statement)?;
        Ok(Reading {
            gathered: self.finish()?,
            header,
        })
    }

    // A VER and an IF belong to the last header.
    fn join(self, statement: &Statement) -> Result<Self, CatFault>
        requires { belongs (part_of statement.now) ≡ true }
        ensures read { IfOk result (λ now. (old : Content) (all : Begun) →
            IsGathered old all self → IsGathered old (with_statement all statement.now) now) }
        ensures no_fault { OnOk result
            (faults_of (is_some self.header.open_record) statement.now ≡ []) }
        ensures fault { IfErr result (IsRefusal Memory (λ fault.
            first_of (faults_of (is_some self.header.open_record) statement.now) ≡ Some fault)) }
    {
        Ok(Reading {
            gathered: self.gathered,
            header: self.header.take(statement)?,
        })
    }

    // A hold or a release is gathered at once.
    fn hold(self, alloc: Global, statement: &Statement) -> Result<Self, CatFault>
        requires { is_of_hold (part_of statement.now) ≡ true }
        ensures read { IfOk result (λ now. (old : Content) (all : Begun) →
            IsGathered old all self → IsGathered old (with_statement all statement.now) now) }
        ensures no_fault { OnOk result ((begun : Bool) → faults_of begun statement.now ≡ []) }
        ensures fault { IfErr result (IsRefusal Memory
            (λ fault. (begun : Bool) → first_of (faults_of begun statement.now) ≡ Some fault)) }
    {
        let changes = alone(alloc, statement)?.finish()?;
        Ok(Reading {
            gathered: self.gathered.with(changes)?,
            header: self.header,
        })
    }

    /// Gathers all that was read.
    ///
    /// # Errors
    ///
    /// `Memory` if memory ran out.
    pub(crate) fn finish(self) -> Result<Gathered, CatFault>
        ensures content { IfOk result (λ now. (old : Content) (all : Begun) →
            IsGathered old all self → IsWith old (changes_in all) now) }
        ensures fault { IfErr result (λ fault. fault ≡ Memory) }
    {
        let changes = self.header.finish()?;
        Ok(self.gathered.with(changes)?)
    }
}

// A statement that means the same whatever comes before it.
fn alone(alloc: Global, statement: &Statement) -> Result<ChangeReader, CatFault>
    requires { belongs (part_of statement.now) ≡ false }
    ensures read { IfOk result (λ now. now ≡ with_statement nothing_begun statement.now) }
    ensures no_fault { OnOk result ((begun : Bool) → faults_of begun statement.now ≡ []) }
    ensures fault { IfErr result (IsRefusal Memory
        (λ fault. (begun : Bool) → first_of (faults_of begun statement.now) ≡ Some fault)) }
{
    ChangeReader::new(alloc).take(statement)
}
