//! The text that shows a whole table.
ghost use Rattle.sql_reads.specs.Columns.{ShowsAll};
ghost use Rattle.sql_texts.specs.Schema.{bureau};

use sql_rows::Table;

/// A table, and the text that shows all its rows with all their columns.
pub trait AllColumns: Table {
    /// The text.
    fn all_columns() -> &'static str
        ensures here { ShowsAll bureau Self.table result.now };
}
