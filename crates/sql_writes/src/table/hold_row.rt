//! The table `hold_row`: the holds. A hold replaces none: the old one is deleted, and another is inserted.
#![tactic(auto, unfolding(sqlite::specs::Listing::understood, sqlite_tied::specs::Compute::everything))]

ghost use Rattle.std.specs.Prelude.{[], ◌∷◌};
ghost use Rattle.sql_texts.specs.Meaning.{Means};
ghost use Rattle.sql_texts.specs.Reads.{is_given};
ghost use Rattle.sql_texts.specs.Schema.{bureau};
ghost use Rattle.sql_texts.specs.Writes.{delete_of, insert_given};

/// The text that inserts a hold, with the columns ?1 to ?8 in the order of the table.
pub(crate) fn insertion() -> &'static str
    ensures { Means bureau result.now (insert_given 5 8) 8 }
{
    "INSERT INTO hold_row (sysmod, kind, reason, fmid, class, dated, resolver, categories) \
     VALUES (?1, ?2, ?3, ?4, ?5, ?6, ?7, ?8)"
}

/// The text that deletes the hold with the SYSMOD ?1, the kind ?2 and the reason ?3.
pub(crate) fn deletion() -> &'static str
    ensures { Means bureau result.now (delete_of 5 11 (is_given 1 0 ∷ is_given 2 1 ∷ is_given 3 2 ∷ [])) 3 }
{
    "DELETE FROM hold_row WHERE sysmod = ?1 AND kind = ?2 AND reason = ?3"
}
