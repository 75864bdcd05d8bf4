//! Texts that write the version of the tables, one statement each, and the text of a probe. The texts that write
//! another table are in its file of `sql_writes`.
#![tactic(auto, unfolding(sqlite::specs::Listing::understood, sqlite_tied::specs::Compute::everything))]

ghost use Rattle.std.specs.Prelude.{[]};
ghost use Rattle.sqlite.specs.Command.TheVariants.{Rollback};
ghost use Rattle.sqlite.specs.Schema.{Schema};
ghost use Rattle.sql_texts.specs.Meaning.{Means};
ghost use Rattle.sql_texts.specs.Schema.{bureau};
ghost use Rattle.sql_texts.specs.Writes.{delete_of, this_version};

/// Puts the version of these tables, 2.
pub fn insert_version() -> &'static str
    ensures { Means bureau result.now this_version 0 }
{
    "INSERT INTO bureau_version (one, version) VALUES (1, 2)"
}

/// Deletes the version of the tables.
pub fn delete_version() -> &'static str
    ensures { Means bureau result.now (delete_of 0 0 []) 0 }
{
    "DELETE FROM bureau_version"
}

/// The text that a probe runs if no transaction is open: an open connection refuses it, and nothing changes, whatever
/// tables there are.
pub fn rollback() -> &'static str
    ensures { (schema : Schema) → Means schema result.now Rollback 0 }
{
    "ROLLBACK"
}
