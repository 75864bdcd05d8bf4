//! From the bytes of a publication to its changes, one statement at a time.
ghost use Rattle.std.specs.Prelude.{◌≡◌, Ok, IfOk, IfErr};
ghost use Rattle.catalogue.specs.Reading.{changes_in};
ghost use Rattle.catalogue.specs.declared.fault.CatFault.TheVariants.{Memory};
ghost use Rattle.bureau.specs.Bodies as Bodies;
ghost use Rattle.bureau.specs.Faults.{IsTold};

use catalogue::{CatFault, Change, ChangeReader, publication_operands};
use faults::AnyFault;
use mcs_reader::Statements;
use std::alloc::Global;

/// The changes that the statements of a body publish. It keeps no statement. It also reads what comes after
/// the first statement with a fault, since a fault of the text itself comes before that.
pub(crate) fn changes_in(alloc: Global, body: &[u8]) -> Result<Vec<Change>, AnyFault>
    ensures changes { IfOk result (λ changes. Bodies.changes_in body.now ≡ Ok changes.items) }
    ensures fault { IfErr result (IsTold (Bodies.changes_in body.now)) }
{
    let mut statements = Statements::asking(alloc, body, publication_operands())?;
    let mut reader = ChangeReader::new(alloc);
    'statements: while let Some(statement) = statements.next()? {
        match reader.take(&statement) {
            Ok(now) => reader = now,
            Err(fault) => {
                statements.finish()?;
                return Err(AnyFault::from(fault));
            }
        }
    }
    Ok(read_changes(reader)?)
}

// The changes of what was read.
fn read_changes(reader: ChangeReader) -> Result<Vec<Change>, CatFault>
    ensures changes { IfOk result (λ changes. changes.items ≡ changes_in reader) }
    ensures fault { IfErr result (λ fault. fault ≡ Memory) }
{
    Ok(reader.finish()?)
}
