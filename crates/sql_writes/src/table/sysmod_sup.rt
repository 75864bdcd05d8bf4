//! The table `sysmod_sup`: the ids that a record supersedes.
#![tactic(auto, unfolding(sqlite::specs::Listing::understood, sqlite_tied::specs::Compute::everything))]

use super::{Asked, Bare, Deletes, InParts, Several};
use crate::records::SupRow;
use crate::texts;
use mcs_reader::Id;
use sql_rows::{All, Sups, id_of};
use sqlite::types::ValueRef;

impl Deletes<Id> for Sups {
    ghost use Rattle.std.specs.Prelude.{refl};

    fn deletion() -> &'static str {
        "DELETE FROM sysmod_sup WHERE id = ?1"
    }

    ghost accepts = { λ id. refl };
}

impl Asked<Id> for Sups {
    fn question() -> &'static str {
        "SELECT rowid FROM sysmod_sup WHERE id = ?1"
    }
}

impl Bare for Sups {
    fn first() -> &'static str {
        "SELECT rowid FROM sysmod_sup LIMIT 1"
    }
}

impl Several<All> for Sups {
    ghost use Rattle.std.specs.Prelude.{◌<◌, ◌≤◌, ◌∷◌, [], refl};
    ghost use Rattle.mcs_reader.specs.Id.{IsId};
    ghost use Rattle.sql_tables.specs.Stored.{is_of_both};
    ghost use Rattle.sql_writes.specs.Records.{member_values};
    ghost use Rattle.sql_texts.specs.Schema as schema;
    ghost use Rattle.sql_writes.specs.Many.{AreGiven};
    ghost use Rattle.sql_rows.proofs.AbsentFacts.{unique_by};
    ghost use Rattle.sql_rows.proofs.CountFacts.{room_of, up_to_eight};
    ghost use Rattle.sql_rows.proofs.FittingFacts.{few, row_fits, stays};

    type Item = SupRow;

    ghost own = { 2 };

    ghost values_of = { member_values };

    ghost row_of = { λ key. member_values };

    ghost is_fit = { λ row. IsId row.id × IsId row.member };

    ghost is_short = { λ row. Unit {0} };

    ghost is_same = { λ key row. is_of_both row.id row.member };

    ghost counts = { λ count. (0 < count) × (count ≤ 8) };

    fn columns<'a>(row: &'a SupRow) -> [ValueRef<'a>; 5] {
        [
            id_of(&row.id),
            id_of(&row.member),
            ValueRef::Null,
            ValueRef::Null,
            ValueRef::Null,
        ]
    }

    fn width() -> usize {
        2
    }

    ghost room = { λ count is. room_of 0 2 count 8 is.1 refl };

    ghost given = { λ key rows is. up_to_eight (AreGiven schema.sysmod_sup 0 2 [] member_values member_values)
        refl (λ a. refl) (λ a b. refl) (λ a b c. refl) (λ a b c d. refl) (λ a b c d e. refl)
        (λ a b c d e f. refl) (λ a b c d e f g. refl) (λ a b c d e f g h. refl) rows is.1 };

    ghost cast = { λ key row. stays schema.sysmod_sup (member_values row) refl };

    ghost fits = { λ key row is here short. row_fits schema.sysmod_sup (7 ∷ 7 ∷ []) (member_values row) refl (λ n. refl)
        (λ n. refl) (few row.id here.0, (few row.member here.1, tt)) };

    ghost unique = { λ db others key row is here none. unique_by schema.sysmod_sup db others
        row.id (row.member ∷ []) (member_values row) refl ((here.0, refl), ((here.1, refl), tt)) none };
}

impl InParts<All> for Sups {
    ghost most = { 8 };

    fn most() -> usize {
        8
    }

    fn insertion(count: usize) -> &'static str {
        texts::sups(count)
    }

    ghost may_come = { λ count some few. (some, few) };
}
