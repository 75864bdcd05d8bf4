//! The SYSMODs that were received.
ghost use Rattle.std.specs.Prelude.{◌≡◌, Ok, Err, IfOk, IfErr};
ghost use Rattle.std.specs.Cmp.Lexicographic.{slice_cmp};
ghost use Rattle.std.specs.List.Sorted.{IsStrictlySortedBy};
ghost use Rattle.std.specs.Ordering.{nat_cmp};
ghost use Rattle.csv.specs.Records.{fields_of};
ghost use Rattle.faults.specs.Refusal.{IsRefusal};
ghost use Rattle.zone_lists.specs.Fields as Spec;
ghost use Rattle.zone_lists.specs.FirstFault.{IsFirstFault};
ghost use Rattle.zone_lists.specs.Lists.{HasEach, at_number, records_of};
ghost use Rattle.zone_lists.specs.ReceivedList.{IsReceivedFault, received_field, received_list, received_rows_of};

use crate::fault::ListFault;
use crate::fields::{is_name, one_field};
use crate::list::{Entries, read_list};
use csv::ByteRecord;
use mcs_reader::Id;
use std::alloc::Global;
use std::collections::BTreeSet;

/// The most records that a list of received SYSMODs may have after its header.
pub const RECEIVED_RECORDS: u32 = 20_000;

/// Reads the SYSMODs of a list whose header is `SYSMOD` and each record an id: ascending, each once.
///
/// # Errors
///
/// The first fault of the list. Of the faults of one record, the first in this order: `TooMany` at record
/// [`RECEIVED_RECORDS`] + 1, `BadRecord` if it has not one field, `BadId`. `Header` comes before all others.
/// `Memory` may come in place of any answer.
#[tactic(auto, using(crate::proofs::KeyFacts::each_received, crate::proofs::OwnFaultFacts::first_of_received))]
pub fn received_rows(alloc: Global, text: &[u8]) -> Result<Vec<Id>, ListFault>
    ensures rows { IfOk result (λ ids. received_rows_of text.now ≡ Ok ids.items) }
    ensures fault { IfErr result (IsRefusal ListFault.Memory
        (λ fault. received_rows_of text.now ≡ Err fault)) }
    ensures ascending { IfOk result (λ ids. IsStrictlySortedBy (slice_cmp nat_cmp) ids.items) }
    ensures each { IfOk result (λ ids. HasEach received_list text.now ids.items) }
    ensures first { IfErr result (IsRefusal ListFault.Memory
        (IsFirstFault received_list IsReceivedFault (records_of text.now))) }
{
    let list: ReceivedIds = read_list(alloc, text)?;
    let rows = list.ids.into_iter().collect(alloc)?;
    Ok(rows)
}

// The ids that were read so far.
#[derive(Drop)]
struct ReceivedIds {
    ids: BTreeSet<Id>,
}

impl Entries for ReceivedIds {
    ghost use Rattle.std.specs.Prelude.{◌≡◌};
    ghost use Rattle.zone_lists.specs.Lists.{in_order};
    ghost use Rattle.zone_lists.specs.ReceivedList.{received_list};

    type Entry = Id;

    ghost kind = { received_list };

    ghost Has = { λ list ids. list.ids.keys ≡ in_order received_list ids };

    fn limit() -> u32 {
        RECEIVED_RECORDS
    }

    fn is_header(row: &ByteRecord) -> bool {
        is_name(row, b"SYSMOD")
    }

    fn new(alloc: Global) -> Self {
        ReceivedIds {
            ids: BTreeSet::new(alloc),
        }
    }

    fn add(&mut self, row: &ByteRecord, n: u32) -> Result<(), ListFault> {
        let id = received_id(row, n)?;
        self.ids.insert(id)?;
        Ok(())
    }
}

// The id that a record stands for by itself.
fn received_id(row: &ByteRecord, n: u32) -> Result<Id, ListFault>
    ensures { result ≡ at_number n (received_field (Spec.one_field (fields_of row.now))) }
{
    let Some(field) = one_field(row) else {
        return Err(ListFault::BadRecord(n));
    };
    let Some(id) = Id::new(field) else {
        return Err(ListFault::BadId(n));
    };
    Ok(id)
}
