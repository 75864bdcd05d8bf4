//! The table `last_change`: the last change of a caller.
#![tactic(auto, unfolding(sqlite::specs::Listing::understood, sqlite_tied::specs::Compute::everything))]

ghost use Rattle.sql_texts.specs.Meaning.{Means};
ghost use Rattle.sql_texts.specs.Schema.{bureau};
ghost use Rattle.sql_texts.specs.Writes.{insert_given};

use super::{Asked, Deletes};
use mcs_reader::Id;
use sql_rows::LastChanges;

impl Deletes<Id> for LastChanges {
    ghost use Rattle.std.specs.Prelude.{refl};

    fn deletion() -> &'static str {
        "DELETE FROM last_change WHERE caller = ?1"
    }

    ghost accepts = { λ id. refl };
}

impl Asked<Id> for LastChanges {
    fn question() -> &'static str {
        "SELECT rowid FROM last_change WHERE caller = ?1"
    }
}

/// The text that inserts a last change, with the columns ?1 to ?3 in the order of the table.
pub(crate) fn insertion() -> &'static str
    ensures { Means bureau result.now (insert_given 2 3) 3 }
{
    "INSERT INTO last_change (caller, number, body) VALUES (?1, ?2, ?3)"
}
