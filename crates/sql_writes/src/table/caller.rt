//! The table `caller`: the callers with their tokens.
#![tactic(auto, unfolding(sqlite::specs::Listing::understood, sqlite_tied::specs::Compute::everything))]

ghost use Rattle.std.specs.Prelude.{[]};
ghost use Rattle.sql_texts.specs.Meaning.{Means};
ghost use Rattle.sql_texts.specs.Schema.{bureau};
ghost use Rattle.sql_texts.specs.Writes.{delete_of, insert_given};

/// The text that inserts a caller with its token, with the columns ?1 and ?2 in the order of the table.
pub(crate) fn insertion() -> &'static str
    ensures { Means bureau result.now (insert_given 1 2) 2 }
{
    "INSERT INTO caller (name, token) VALUES (?1, ?2)"
}

/// The text that deletes all callers.
pub(crate) fn deletion() -> &'static str
    ensures { Means bureau result.now (delete_of 1 1 []) 0 }
{
    "DELETE FROM caller"
}
