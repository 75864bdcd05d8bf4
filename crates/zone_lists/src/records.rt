//! Reading the records of a list, by `csv`.
ghost use Rattle.std.specs.Prelude.{◌≡◌, [], ◌∷◌, IfOk, IfErr, OnOk, if◌then◌else◌};
ghost use Rattle.csv.specs.Records.{fields_of};
ghost use Rattle.zone_lists.specs.Lists.{records_of};
ghost use Rattle.zone_lists.specs.Reader.{ReadsRecords, records_left};

use crate::fault::ListFault;
use csv::{ByteRecord, Reader, ReaderBuilder};
use std::alloc::Global;

/// The records of a text, the header among them, read one after another into one row.
#[derive(Drop)]
pub(crate) struct Records<'a> {
    reader: Reader<&'a [u8]>,
    row: ByteRecord,
}

impl<'a> Records<'a> {
    /// The records of a text, none of which is read yet.
    pub(crate) fn new(alloc: Global, text: &'a [u8]) -> Self
        ensures reads { ReadsRecords result.reader }
        ensures all { records_left result.reader ≡ records_of text.now }
    {
        Records {
            reader: record_reader(alloc, text),
            row: ByteRecord::new(alloc),
        }
    }

    /// Reads the next record, and says whether there was one.
    pub(crate) fn read_next(&mut self) -> Result<bool, ListFault>
        requires { ReadsRecords self.old.reader }
        ensures goes_on { OnOk result (ReadsRecords self.new.reader) }
        ensures takes { IfOk result (λ found. records_left self.old.reader
            ≡ (if found then fields_of self.new.row ∷ records_left self.new.reader else [])) }
        ensures memory { IfErr result (λ fault. fault ≡ ListFault.Memory) }
    {
        let found = self.reader.read_byte_record(&mut self.row)?;
        Ok(found)
    }

    /// The record that was read last.
    pub(crate) fn row(&self) -> &ByteRecord
        ensures { result.now ≡ self.now.row }
    {
        &self.row
    }
}

// A reader of the records of a text, the header among them, of as many fields as they have.
fn record_reader(alloc: Global, text: &[u8]) -> Reader<&[u8]>
    ensures ready { ReadsRecords result }
    ensures all { records_left result ≡ records_of text.now }
{
    ReaderBuilder::new()
        .has_headers(false)
        .flexible(true)
        .from_reader(alloc, text)
}
