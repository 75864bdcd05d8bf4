//! The rows of one table, taken from the front for one SYSMOD after the other.
ghost use Rattle.std.specs.Prelude.{◌≡◌};
ghost use Rattle.sql_reads.specs.Scans.{Takes};

use crate::cut::cut;
use crate::scan::Scanned;
use mcs_reader::Id;
use sqlite::Row;
use std::marker::PhantomData;

/// The rows of a table that are left, in the order of their SYSMODs.
#[derive(Drop)]
pub(crate) struct Queue<'a, T> {
    rows: &'a [Row],
    table: PhantomData<T>,
}

impl<'a, T: Scanned> Queue<'a, T> {
    /// All of these rows are left.
    pub(crate) fn new(rows: &'a [Row]) -> Self
        ensures { result.rows.now ≡ rows.now }
    {
        Queue {
            rows,
            table: PhantomData,
        }
    }

    /// Takes the rows of a SYSMOD from the front. Those of the SYSMODs before it are passed over.
    pub(crate) fn take(&mut self, id: &Id) -> &'a [Row]
        ensures { Takes T.scan_shown T.at id.now self.old.rows.now result.now self.new.rows.now }
    {
        let (mine, left) = cut(self.rows, T::place(), id.as_bytes());
        self.rows = left;
        mine
    }
}
