//! A table of the schema, whichever it is.
ghost use Rattle.std.specs.Prelude.{ℕ, List};
ghost use Rattle.sqlite.specs.Table.{Table as SomeTable};
ghost use Rattle.sqlite_value.specs.Order.{Row as Values};
ghost use Rattle.sql_tables.specs.Stored.{Stored};
ghost use Rattle.sql_rows.specs.Standing.{Stands};

/// A table of the schema, whose rows are some of those of the store.
pub trait Table {
    /// Its index in the schema.
    ghost index: { ℕ };

    /// Its columns, its key and its tree.
    ghost table: { SomeTable };

    /// Its rows among those of the store.
    ghost rows: { Stored → List Values };

    /// The store with other rows of it.
    ghost with_rows: { List Values → Stored → Stored };

    /// It is there, and its rows are those of its tree.
    ghost stands: { Stands index table rows with_rows };
}
