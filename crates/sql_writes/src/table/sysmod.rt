//! The table `sysmod`: records, without the ids that they supersede and those that they require under a
//! condition.
#![tactic(auto, unfolding(sqlite::specs::Listing::understood, sqlite_tied::specs::Compute::everything))]

use super::{Asked, Bare, Deletes, Several};
use crate::records::SysmodRow;
use mcs_reader::Id;
use sql_rows::{All, Sysmods, id_of};
use sql_tables::sysmod_kind_value;
use sqlite::types::ValueRef;

impl Deletes<Id> for Sysmods {
    ghost use Rattle.std.specs.Prelude.{refl};

    fn deletion() -> &'static str {
        "DELETE FROM sysmod WHERE id = ?1"
    }

    ghost accepts = { λ id. refl };
}

impl Asked<Id> for Sysmods {
    fn question() -> &'static str {
        "SELECT rowid FROM sysmod WHERE id = ?1"
    }
}

impl Bare for Sysmods {
    fn first() -> &'static str {
        "SELECT rowid FROM sysmod LIMIT 1"
    }
}

impl Several<All> for Sysmods {
    ghost use Rattle.std.specs.Prelude.{◌≡◌, ◌⊎◌, ◌∷◌, [], refl};
    ghost use Rattle.mcs_reader.specs.Id.{IsId};
    ghost use Rattle.sql_texts.specs.Schema as schema;
    ghost use Rattle.sql_tables.specs.InTrees.{columns_of};
    ghost use Rattle.sql_tables.specs.Values.{sysmod_kind_order};
    ghost use Rattle.sql_writes.specs.Many.{AreGiven};
    ghost use Rattle.sql_writes.specs.Records.{IsShortRow, has_id_of, values_of};
    ghost use Rattle.sql_rows.proofs.AbsentFacts.{none_of_text, unique_by};
    ghost use Rattle.sql_rows.proofs.CountFacts.{one_or_eight, room_of, up_to_the_eighth};
    ghost use Rattle.sql_rows.proofs.FittingFacts.{few, row_fits, stays, sysmod_kind_low, up_to_passes};

    type Item = SysmodRow;

    ghost own = { 5 };

    ghost values_of = { values_of };

    ghost row_of = { λ key. values_of };

    ghost is_fit = { λ row. IsId row.id };

    ghost is_short = { IsShortRow };

    ghost is_same = { λ key. has_id_of };

    ghost counts = { λ count. (count ≡ 1) ⊎ (count ≡ 8) };

    fn columns<'a>(row: &'a SysmodRow) -> [ValueRef<'a>; 5] {
        [
            id_of(&row.id),
            sysmod_kind_value(row.kind),
            ValueRef::Text(row.fmids.as_slice()),
            ValueRef::Text(row.pre.as_slice()),
            ValueRef::Text(row.req.as_slice()),
        ]
    }

    fn width() -> usize {
        5
    }

    ghost room = { λ count is. room_of 0 5 count 8 (up_to_the_eighth count is) refl };

    ghost given = { λ key rows is. one_or_eight (AreGiven schema.sysmod 0 5 [] values_of values_of)
        (λ a. refl) (λ a b c d e f g h. refl) rows is };

    ghost cast = { λ key row. stays schema.sysmod (values_of row) refl };

    ghost fits = { λ key row is here short. row_fits schema.sysmod
        (7 ∷ 0 ∷ 300000000 ∷ 300000000 ∷ 300000000 ∷ []) (values_of row) refl (λ n. refl)
        (λ n. up_to_passes (sysmod_kind_order row.kind) 3 (sysmod_kind_low row.kind))
        (few row.id here, (tt, (short.0, (short.1.0, (short.1.1, tt))))) };

    ghost unique = { λ db others key row is here none. unique_by schema.sysmod db others
        row.id [] (values_of row) refl ((here, refl), tt) (none_of_text row.id here (columns_of others) none) };
}
