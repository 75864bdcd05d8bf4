//! A table of a store as a check knows it: how the bureau makes it, and the rules of its rows.
ghost use Rattle.std.specs.Prelude.{◌≡◌, ◌↔◌, IfOk, IsTrue};
ghost use Rattle.sqlite_value.specs.Order.{Row as Values};
ghost use Rattle.sql_checks.specs.Known.{Known};
ghost use Rattle.sql_checks.specs.Shapes.{table_of_shape};
ghost use Rattle.sql_reads.specs.Columns.{indices_of};
ghost use Rattle.sql_texts.specs.Found.{shown as show};

use crate::shapes::TableShape;
use sql_reads::AllColumns;
use sql_tables::NoMemory;
use sqlite::Row;
use std::alloc::Global;

/// A table of a store, apart from that of the version.
pub(crate) trait Checked: AllColumns {
    /// The rules of each of its rows.
    ghost keeps_to: { Values → Type 0 };

    /// Its shape, as the bureau makes it.
    fn shape() -> TableShape
        ensures { table_of_shape result ≡ Self.table };

    /// Whether the bureau writes such a row, and a read takes it.
    fn keeps(alloc: Global, row: &Row) -> Result<bool, NoMemory>
        ensures { IfOk result (λ keeps. IsTrue keeps ↔ keeps_to row.now) };

    /// A row keeps to the rules exactly if its columns do, as the text shows them.
    ghost as_shown: { (row : Values) → keeps_to (show (indices_of Self.table) row) ↔ keeps_to row };
}

/// One of the tables of a store.
pub(crate) trait Listed {
    /// The facts on it.
    ghost known: { Self → Known };
}
