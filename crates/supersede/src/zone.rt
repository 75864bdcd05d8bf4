//! Zones.
ghost use Rattle.std.specs.Prelude.{◌≡◌, ◌↔◌, true, length, IfOk};
ghost use Rattle.std.specs.Cmp.Lexicographic.{slice_cmp};
ghost use Rattle.std.specs.List.Sorted.{IsBinarySearchResult, IsSearchInRange};
ghost use Rattle.std.specs.Ordering.{nat_cmp};
ghost use Rattle.zone_lists.specs.Installed.{is_installed, is_listed};
ghost use Rattle.zone_lists.specs.ZoneList.{RowsAscend};
ghost use Rattle.supersede.specs.Zone as Spec;

use faults::NoMemory;
use mcs_reader::Id;
use std::alloc::Global;
use std::marker::Model;
use zone_lists::{ZoneRow, ZoneState};

/// The SYSMODs of a zone with their states. It finds one by halves.
///
/// A contract sees a zone as the list of its rows, which ascend by SYSMOD, each once.
#[derive(Debug, Drop)]
pub struct Zone {
    rows: Vec<ZoneRow>,
}

impl Model for Zone {
    ghost use Rattle.std.specs.Prelude.{List};
    ghost use Rattle.zone_lists.specs.ZoneList.{RowsAscend};
    ghost use Rattle.zone_lists.specs.declared.zones.ZoneRow.{ZoneRow};

    ghost Value = { List ZoneRow };

    ghost view = { λ zone. zone.rows.items };

    ghost invariant = { λ zone. RowsAscend zone.rows.items };
}

impl Zone {
    /// Copies these rows, which ascend by SYSMOD, each once, as `zone_rows` returns them.
    ///
    /// # Errors
    ///
    /// `NoMemory` if memory ran out.
    pub fn new(alloc: Global, rows: &[ZoneRow]) -> Result<Zone, NoMemory>
        requires { RowsAscend rows.now }
        ensures { IfOk result (λ zone. zone ≡ rows.now) }
    {
        let rows = Vec::from_slice(alloc, rows)?;
        Ok(Zone { rows })
    }

    /// The zone with these rows, which it takes over. It takes no memory.
    pub fn from_rows(rows: Vec<ZoneRow>) -> Zone
        requires { RowsAscend rows.items }
        ensures { result ≡ rows.items }
    {
        Zone { rows }
    }

    /// Its rows, ascending by SYSMOD, each once.
    pub fn rows(&self) -> &[ZoneRow]
        ensures value { result.now ≡ self.now }
        ensures ascend { RowsAscend result.now }
    {
        self.rows.as_slice()
    }

    /// Copies the zone.
    ///
    /// # Errors
    ///
    /// `NoMemory` if memory ran out.
    pub fn copy(&self) -> Result<Zone, NoMemory>
        ensures { IfOk result (λ copy. copy ≡ self.now) }
    {
        Ok(Zone {
            rows: self.rows.clone()?,
        })
    }

    /// Whether both have the same rows.
    pub fn is_same(&self, other: &Zone) -> bool
        ensures { (result ≡ true) ↔ (self.now ≡ other.now) }
    {
        self.rows.as_slice() == other.rows.as_slice()
    }

    /// Whether the zone has a row of this SYSMOD, in whatever state.
    pub fn listed(&self, id: &Id) -> bool
        ensures { result ≡ is_listed self.now id.now }
    {
        state_in(&self.rows, id).is_some()
    }

    /// Whether this SYSMOD is installed in the zone: its row says APPLIED or ACCEPTED.
    pub fn installed(&self, id: &Id) -> bool
        ensures { result ≡ is_installed self.now id.now }
    {
        match state_in(&self.rows, id) {
            Some(state) => state.is_installed(),
            None => false,
        }
    }
}

// The state of the row of a SYSMOD, if it has one.
fn state_in(rows: &[ZoneRow], id: &Id) -> Option<ZoneState>
    requires { RowsAscend rows.now }
    ensures { result ≡ Spec.state_in rows.now id.now }
{
    match row_index(rows, id) {
        Ok(at) => Some(rows[at].state),
        Err(_) => None,
    }
}

// The index of a SYSMOD's row, or the index at which it would stand.
fn row_index(rows: &[ZoneRow], id: &Id) -> Result<usize, usize>
    ensures within { IsSearchInRange result (length rows.now) }
    ensures found { IsBinarySearchResult (λ row. slice_cmp nat_cmp row.sysmod id.now) rows.now result }
{
    rows.binary_search_by(|row| row.sysmod.cmp(id))
}
