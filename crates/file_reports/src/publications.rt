//! The content that publications leave, one after the other.
ghost use Rattle.std.specs.Prelude.{◌≡◌, List, Err, Ok, IfOk, IfErr, map};
ghost use Rattle.faults.specs.Refusal.{IsRefusal};
ghost use Rattle.mcs_reader.specs.ReadingOf.{reading_of};
ghost use Rattle.mcs_reader.specs.declared.fault.McsFault.TheVariants.{Memory};
ghost use Rattle.catalogue.specs.Content.{IsInOrder};
ghost use Rattle.catalogue.specs.declared.change.Change.{Change};
ghost use Rattle.faults.specs.declared.fault.Cause.TheVariants.{Machine};
ghost use Rattle.bureau.specs.Bodies as body;
ghost use Rattle.bureau.specs.Faults.{IsTold};
ghost use Rattle.file_reports.specs.Gathering.{IsWith};
ghost use Rattle.file_reports.specs.Inputs as said;
ghost use Rattle.file_reports.specs.Inputs.{IsFirstFault};
ghost use Rattle.file_reports.specs.declared.fault.Input.TheVariants as input;

use crate::fault::no_statement;
use crate::gathering::Reading;
use crate::{Input, InputFault};
use catalogue::{SourceFault, publication_operands};
use faults::AnyFault;
use flat_content::{FlatContent, Gathered};
use mcs_reader::{McsFault, Statements};
use std::alloc::Global;

/// The content that publications leave if nothing was published before. Each is gathered while it is read, and is
/// dropped before the next one is read.
///
/// # Errors
///
/// The fault of the first publication that has one; or memory ran out.
pub(crate) fn content_in(
    alloc: Global,
    publications: Vec<Vec<u8>>,
) -> Result<FlatContent, InputFault>
    ensures content { IfOk result (λ content.
        said.content_published (map (λ body. body.items) publications.items) ≡ Ok content) }
    ensures in_order { IfOk result IsInOrder }
    ensures fault { IfErr result
        (IsFirstFault (said.content_published (map (λ body. body.items) publications.items))) }
{
    let mut gathered = Gathered::new(alloc);
    for (index, publication) in publications.into_iter().enumerate() {
        gathered = with_publication(alloc, gathered, index, publication)?;
    }
    Ok(finished_content(gathered)?)
}

// Adds what the publication with this index publishes, and drops the publication.
fn with_publication(
    alloc: Global,
    gathered: Gathered,
    index: usize,
    text: Vec<u8>,
) -> Result<Gathered, InputFault>
    ensures content { IfOk result (λ now. (changes : List Change)
        × (said.said_in (input.Publication index) (said.publication_in text.items) ≡ Ok changes)
        × IsWith gathered changes now) }
    ensures fault { IfErr result
        (IsFirstFault (said.said_in (input.Publication index) (said.publication_in text.items))) }
{
    match with_file(alloc, gathered, text.as_slice()) {
        Ok(now) => Ok(now),
        Err(fault) => Err(InputFault::of(fault, Input::Publication(index))),
    }
}

// The content of what was published.
fn finished_content(gathered: Gathered) -> Result<FlatContent, SourceFault>
    ensures content { IfOk result (λ content. content ≡ gathered) }
    ensures in_order { IfOk result IsInOrder }
    ensures fault { IfErr result (λ fault. fault ≡ SourceFault.Memory) }
{
    Ok(gathered.content()?)
}

// Adds what a publication publishes, which has lines.
fn with_file(alloc: Global, gathered: Gathered, text: &[u8]) -> Result<Gathered, AnyFault>
    ensures content { IfOk result (λ now. (changes : List Change)
        × (said.publication_in text.now ≡ Ok changes) × IsWith gathered changes now) }
    ensures fault { IfErr result (IsTold (said.publication_in text.now)) }
    ensures memory { IfErr result (λ fault. fault.cause ≡ Machine → said.IsMemory fault) }
{
    if is_unended(text) {
        return Err(no_statement());
    }
    with_statements(alloc, gathered, text)
}

// Whether these are records without line ends, of which a reader of lines sees the first 72 bytes alone.
fn is_unended(text: &[u8]) -> bool
    ensures { result ≡ said.is_unended text.now }
{
    text.len() > 80 && !text.contains(&b'\n')
}

// Adds what statements publish, of which there is one.
fn with_statements(alloc: Global, gathered: Gathered, text: &[u8]) -> Result<Gathered, AnyFault>
    ensures content { IfOk result (λ now. (changes : List Change)
        × (said.statements_in text.now ≡ Ok changes) × IsWith gathered changes now) }
    ensures fault { IfErr result (IsTold (said.statements_in text.now)) }
    ensures memory { IfErr result (λ fault. fault.cause ≡ Machine → said.IsMemory fault) }
{
    if !has_statement(alloc, text)? {
        return Err(no_statement());
    }
    with_text(alloc, gathered, text)
}

// Whether there is a statement. It reads the first one alone.
fn has_statement(alloc: Global, text: &[u8]) -> Result<bool, McsFault>
    ensures has { IfOk result (λ has. said.HasAny has (reading_of text.now)) }
    ensures fault { IfErr result (IsRefusal Memory (λ fault. reading_of text.now ≡ Err fault)) }
{
    let mut statements = Statements::asking(alloc, text, publication_operands())?;
    Ok(statements.next()?.is_some())
}

// Adds what the statements of a publication publish. It keeps no statement, and no list of changes. It also reads
// what comes after the first statement with a fault, since a fault of the text comes before that.
fn with_text(alloc: Global, gathered: Gathered, text: &[u8]) -> Result<Gathered, AnyFault>
    ensures content { IfOk result (λ now. (changes : List Change)
        × (body.changes_in text.now ≡ Ok changes) × IsWith gathered changes now) }
    ensures fault { IfErr result (IsTold (body.changes_in text.now)) }
    ensures memory { IfErr result (λ fault. fault.cause ≡ Machine → said.IsMemory fault) }
{
    let mut statements = Statements::asking(alloc, text, publication_operands())?;
    let mut reading = Reading::new(alloc, gathered);
    'statements: while let Some(statement) = statements.next()? {
        match reading.take(alloc, &statement) {
            Ok(now) => reading = now,
            Err(fault) => {
                statements.finish()?;
                return Err(AnyFault::from(fault));
            }
        }
    }
    Ok(reading.finish()?)
}
