//! The table `zone_row`: the SYSMODs of a client's zone with their states.
#![tactic(auto, unfolding(sqlite::specs::Listing::understood, sqlite_tied::specs::Compute::everything))]

use super::{Deletes, InParts, Leaves, Several};
use crate::texts;
use mcs_reader::Id;
use sql_rows::{Zone, ZoneRows, id_of};
use sql_tables::state_value;
use sqlite::types::ValueRef;
use zone_lists::ZoneRow;

impl Deletes<Zone> for ZoneRows {
    ghost use Rattle.std.specs.Prelude.{refl};

    fn deletion() -> &'static str {
        "DELETE FROM zone_row WHERE client = ?1 AND zone = ?2"
    }

    ghost accepts = { λ key. refl };
}

impl Deletes<Id> for ZoneRows {
    ghost use Rattle.std.specs.Prelude.{refl};

    fn deletion() -> &'static str {
        "DELETE FROM zone_row WHERE client = ?1"
    }

    ghost accepts = { λ client. refl };
}

impl Leaves<Zone> for ZoneRows {}

impl Several<Zone> for ZoneRows {
    ghost use Rattle.std.specs.Prelude.{◌<◌, ◌≤◌, ◌∷◌, [], refl};
    ghost use Rattle.sql_tables.specs.Fit.{IsZoneRow};
    ghost use Rattle.sql_tables.specs.Rows as spec;
    ghost use Rattle.sql_tables.specs.Values.{id_value, state_order, state_value};
    ghost use Rattle.sql_rows.specs.Parts.{is_of_three};
    ghost use Rattle.sql_texts.specs.Schema as schema;
    ghost use Rattle.sql_writes.specs.Many.{AreGiven};
    ghost use Rattle.sql_rows.proofs.AbsentFacts.{unique_by};
    ghost use Rattle.sql_rows.proofs.CountFacts.{room_of, up_to_eight};
    ghost use Rattle.sql_rows.proofs.FittingFacts.{few, row_fits, state_low, stays, up_to_passes};

    type Item = ZoneRow;

    ghost own = { 2 };

    ghost values_of = { λ row. id_value row.sysmod ∷ state_value row.state ∷ [] };

    ghost row_of = { λ key row. spec.zone_row key.client key.zone row };

    ghost is_fit = { IsZoneRow };

    ghost is_short = { λ row. Unit {0} };

    ghost is_same = { λ key row. is_of_three key.client key.zone row.sysmod };

    ghost counts = { λ count. (0 < count) × (count ≤ 8) };

    fn columns<'a>(row: &'a ZoneRow) -> [ValueRef<'a>; 5] {
        [
            id_of(&row.sysmod),
            state_value(row.state),
            ValueRef::Null,
            ValueRef::Null,
            ValueRef::Null,
        ]
    }

    fn width() -> usize {
        2
    }

    ghost room = { λ count is. room_of 2 2 count 8 is.1 refl };

    ghost given = { λ key rows is. up_to_eight
        (AreGiven schema.zone_row 2 2 (id_value key.client ∷ id_value key.zone ∷ [])
        (λ row. id_value row.sysmod ∷ state_value row.state ∷ []) (spec.zone_row key.client key.zone))
        refl (λ a. refl) (λ a b. refl) (λ a b c. refl) (λ a b c d. refl) (λ a b c d e. refl)
        (λ a b c d e f. refl) (λ a b c d e f g. refl) (λ a b c d e f g h. refl) rows is.1 };

    ghost cast = { λ key row. stays schema.zone_row (spec.zone_row key.client key.zone row) refl };

    ghost fits = { λ key row is here short. row_fits schema.zone_row (7 ∷ 7 ∷ 7 ∷ 0 ∷ [])
        (spec.zone_row key.client key.zone row) refl (λ n. refl)
        (λ n. up_to_passes (state_order row.state) 2 (state_low row.state))
        (few key.client is.0, (few key.zone is.1, (few row.sysmod here.sysmod, (tt, tt)))) };

    ghost unique = { λ db others key row is here none. unique_by schema.zone_row db others
        key.client (key.zone ∷ row.sysmod ∷ []) (spec.zone_row key.client key.zone row) refl
        ((is.0, refl), ((is.1, refl), ((here.sysmod, refl), tt))) none };
}

impl InParts<Zone> for ZoneRows {
    ghost most = { 8 };

    fn most() -> usize {
        8
    }

    fn insertion(count: usize) -> &'static str {
        texts::zone_rows(count)
    }

    ghost may_come = { λ count some few. (some, few) };
}
