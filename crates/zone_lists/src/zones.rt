//! The SYSMODs of a zone.
ghost use Rattle.std.specs.Prelude.{◌≡◌, map, true, false, Some, Ok, Err, IfOk, IfErr, OnOk};
ghost use Rattle.std.specs.BTreeMap.{Updates, get, insert_entry};
ghost use Rattle.std.specs.Cmp.Lexicographic.{slice_cmp};
ghost use Rattle.std.specs.List.Sorted.{IsStrictlySortedBy};
ghost use Rattle.std.specs.Map.{keys_of};
ghost use Rattle.std.specs.Ordering.{nat_cmp};
ghost use Rattle.csv.specs.Records.{fields_of};
ghost use Rattle.faults.specs.Refusal.{IsRefusal};
ghost use Rattle.zone_lists.specs.Fields as Spec;
ghost use Rattle.zone_lists.specs.FirstFault.{IsFirstFault};
ghost use Rattle.zone_lists.specs.Gathered.{has_other_state, row_of};
ghost use Rattle.zone_lists.specs.Installed.{is_installed_state};
ghost use Rattle.zone_lists.specs.Lists.{HasEach, at_number, records_of};
ghost use Rattle.zone_lists.specs.ZoneList.{IsZoneFault, RowsAscend, state_of, zone_fields, zone_list, zone_rows_of};

use crate::fault::ListFault;
use crate::fields::{are_names, two_fields};
use crate::list::{Entries, read_list};
use csv::ByteRecord;
use faults::NoMemory;
use mcs_reader::Id;
use std::alloc::Global;
use std::collections::BTreeMap;

/// The most records that a zone's list may have after its header.
pub const ZONE_RECORDS: u32 = 40_000;

/// The state of a SYSMOD in a zone.
#[derive(Clone, Copy, Debug, PartialEq, Eq, PartialOrd, Ord, Hash)]
pub enum ZoneState {
    /// Installed in a target zone.
    Applied,
    /// Installed in a distribution zone.
    Accepted,
    /// Not installed itself; an installed SYSMOD supersedes it.
    Superseded,
}

/// A SYSMOD of a zone with its state.
#[derive(Clone, Copy, Debug, PartialEq, Eq, PartialOrd, Ord, Hash)]
pub struct ZoneRow {
    /// The SYSMOD, which stands in an answer once.
    pub sysmod: Id,
    /// Its state in the zone.
    pub state: ZoneState,
}

/// Reads the rows of a zone's list. Its header is `SYSMOD,STATE`, and each record an id and `APPLIED`, `ACCEPTED` or
/// `SUPERSEDED`. The rows ascend by SYSMOD, each once.
///
/// # Errors
///
/// The first fault of the list. Of the faults of one record, the first in this order: `TooMany` at record
/// [`ZONE_RECORDS`] + 1, `BadRecord` if it has not two fields, `BadId`, `BadState`, `Repeated`. `Header` comes
/// before all others. `Memory` may come in place of any answer.
pub fn zone_rows(alloc: Global, text: &[u8]) -> Result<Vec<ZoneRow>, ListFault>
    ensures rows { IfOk result (λ rows. zone_rows_of text.now ≡ Ok rows.items) }
    ensures fault { IfErr result (IsRefusal ListFault.Memory (λ fault. zone_rows_of text.now ≡ Err fault)) }
    ensures ascending { IfOk result (λ rows. RowsAscend rows.items) }
    ensures each { IfOk result (λ rows. HasEach zone_list text.now rows.items) }
    ensures first { IfErr result (IsRefusal ListFault.Memory
        (IsFirstFault zone_list IsZoneFault (records_of text.now))) }
{
    let list: ZoneStates = read_list(alloc, text)?;
    let rows = rows_of(alloc, list.states)?;
    Ok(rows)
}

// The entries of a map as rows.
fn rows_of(alloc: Global, states: BTreeMap<Id, ZoneState>) -> Result<Vec<ZoneRow>, NoMemory>
    ensures rows { IfOk result (λ rows. rows.items ≡ map row_of states.entries) }
    ensures ascending { OnOk result (IsStrictlySortedBy (slice_cmp nat_cmp) (keys_of states.entries)) }
{
    states
        .into_iter()
        .map(|(sysmod, state)| ZoneRow { sysmod, state })
        .collect(alloc)
}

// The states of the SYSMODs that were read so far.
#[derive(Drop)]
struct ZoneStates {
    states: BTreeMap<Id, ZoneState>,
}

impl Entries for ZoneStates {
    ghost use Rattle.zone_lists.specs.Gathered.{HasRows};
    ghost use Rattle.zone_lists.specs.ZoneList.{zone_list};

    type Entry = ZoneRow;

    ghost kind = { zone_list };

    ghost Has = { λ list rows. HasRows list.states.entries rows };

    fn limit() -> u32 {
        ZONE_RECORDS
    }

    fn is_header(row: &ByteRecord) -> bool {
        are_names(row, b"SYSMOD", b"STATE")
    }

    fn new(alloc: Global) -> Self {
        ZoneStates {
            states: BTreeMap::new(alloc),
        }
    }

    fn add(&mut self, row: &ByteRecord, n: u32) -> Result<(), ListFault> {
        let row = zone_row(row, n)?;
        add_row(&mut self.states, row, n)?;
        Ok(())
    }
}

// The row that a record stands for by itself.
fn zone_row(row: &ByteRecord, n: u32) -> Result<ZoneRow, ListFault>
    ensures { result ≡ at_number n (zone_fields (Spec.two_fields (fields_of row.now))) }
{
    let Some((sysmod, state)) = two_fields(row) else {
        return Err(ListFault::BadRecord(n));
    };
    let Some(sysmod) = Id::new(sysmod) else {
        return Err(ListFault::BadId(n));
    };
    let Some(state) = ZoneState::named(state) else {
        return Err(ListFault::BadState(n));
    };
    Ok(ZoneRow { sysmod, state })
}

impl ZoneState {
    /// Whether it stands for a SYSMOD that is installed itself.
    pub fn is_installed(self) -> bool
        ensures { result ≡ is_installed_state self }
    {
        matches!(self, ZoneState::Applied | ZoneState::Accepted)
    }

    // The state with this name.
    fn named(name: &[u8]) -> Option<ZoneState>
        ensures { result ≡ state_of name.now }
    {
        if name == b"APPLIED".as_slice() {
            Some(ZoneState::Applied)
        } else if name == b"ACCEPTED".as_slice() {
            Some(ZoneState::Accepted)
        } else if name == b"SUPERSEDED".as_slice() {
            Some(ZoneState::Superseded)
        } else {
            None
        }
    }
}

// Adds a row to those before it, unless its SYSMOD came before with another state.
fn add_row(states: &mut BTreeMap<Id, ZoneState>, row: ZoneRow, n: u32) -> Result<(), ListFault>
    ensures added { OnOk result (states.new.entries
        ≡ insert_entry (slice_cmp nat_cmp) states.old.entries row.sysmod row.state) }
    ensures found { OnOk result
        (Updates (slice_cmp nat_cmp) states.old states.new row.sysmod (Some row.state)) }
    ensures same { OnOk result
        (has_other_state row.state (get (slice_cmp nat_cmp) states.old row.sysmod) ≡ false) }
    ensures repeated { IfErr result (IsRefusal ListFault.Memory (λ fault. (fault ≡ ListFault.Repeated n)
        × (has_other_state row.state (get (slice_cmp nat_cmp) states.old row.sysmod) ≡ true))) }
{
    let before = states.insert(row.sysmod, row.state)?;
    match before {
        Some(state) if state != row.state => Err(ListFault::Repeated(n)),
        _ => Ok(()),
    }
}
