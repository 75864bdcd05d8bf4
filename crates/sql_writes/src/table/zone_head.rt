//! The table `zone_head`: the zones that a client has, and the patterns of each.
#![tactic(auto, unfolding(sqlite::specs::Listing::understood, sqlite_tied::specs::Compute::everything))]

use super::{Asked, Deletes, Joined, Leaves, Several};
use mcs_reader::Id;
use sql_rows::{Heads, Zone};
use sql_tables::{NoMemory, joined_patterns};
use sqlite::types::ValueRef;
use std::alloc::Global;
use zone_lists::Pattern;

impl Deletes<Zone> for Heads {
    ghost use Rattle.std.specs.Prelude.{refl};

    fn deletion() -> &'static str {
        "DELETE FROM zone_head WHERE client = ?1 AND zone = ?2"
    }

    ghost accepts = { λ key. refl };
}

impl Deletes<Id> for Heads {
    ghost use Rattle.std.specs.Prelude.{refl};

    fn deletion() -> &'static str {
        "DELETE FROM zone_head WHERE client = ?1"
    }

    ghost accepts = { λ client. refl };
}

impl Asked<Zone> for Heads {
    fn question() -> &'static str {
        "SELECT rowid FROM zone_head WHERE client = ?1 AND zone = ?2"
    }
}

impl Leaves<Zone> for Heads {}

impl Several<Zone> for Heads {
    ghost use Rattle.std.specs.Prelude.{◌≡◌, ◌≤◌, ◌∷◌, [], length, refl};
    ghost use Rattle.sqlite_value.specs.declared.value.Value.TheVariants.{Text};
    ghost use Rattle.sql_texts.specs.Schema as schema;
    ghost use Rattle.sql_tables.specs.Stored.{is_of_both};
    ghost use Rattle.sql_tables.specs.Values.{id_value};
    ghost use Rattle.sql_writes.specs.Many.{AreGiven};
    ghost use Rattle.sql_rows.proofs.AbsentFacts.{unique_by};
    ghost use Rattle.sql_rows.proofs.CountFacts.{one_only, room_of_one};
    ghost use Rattle.sql_rows.proofs.FittingFacts.{few, row_fits, stays};

    type Item = Vec<u8>;

    ghost own = { 1 };

    ghost values_of = { λ joined. Text joined.items ∷ [] };

    ghost row_of = { λ key joined. id_value key.client ∷ id_value key.zone ∷ Text joined.items ∷ [] };

    ghost is_fit = { λ joined. Unit {0} };

    ghost is_short = { λ joined. length joined.items ≤ 300000000 };

    ghost is_same = { λ key joined. is_of_both key.client key.zone };

    ghost counts = { λ count. count ≡ 1 };

    fn columns<'a>(joined: &'a Vec<u8>) -> [ValueRef<'a>; 5] {
        [
            ValueRef::Text(joined.as_slice()),
            ValueRef::Null,
            ValueRef::Null,
            ValueRef::Null,
            ValueRef::Null,
        ]
    }

    fn width() -> usize {
        1
    }

    ghost room = { λ count is. room_of_one 2 1 count is refl };

    ghost given = { λ key all is. one_only
        (AreGiven schema.zone_head 2 1 (id_value key.client ∷ id_value key.zone ∷ []) (λ joined. Text joined.items ∷ [])
        (λ joined. id_value key.client ∷ id_value key.zone ∷ Text joined.items ∷ []))
        (λ a. refl) all is };

    ghost cast = { λ key joined. stays schema.zone_head
        (id_value key.client ∷ id_value key.zone ∷ Text joined.items ∷ []) refl };

    ghost fits = { λ key joined is here short. row_fits schema.zone_head (7 ∷ 7 ∷ 300000000 ∷ [])
        (id_value key.client ∷ id_value key.zone ∷ Text joined.items ∷ []) refl (λ n. refl) (λ n. refl)
        (few key.client is.0, (few key.zone is.1, (short, tt))) };

    ghost unique = { λ db others key joined is here none. unique_by schema.zone_head db others
        key.client (key.zone ∷ []) (id_value key.client ∷ id_value key.zone ∷ Text joined.items ∷ []) refl
        ((is.0, refl), ((is.1, refl), tt)) none };
}

impl Joined<Zone> for Heads {
    ghost use Rattle.std.specs.Prelude.{refl};
    ghost use Rattle.std.specs.List.{join_with_byte};
    ghost use Rattle.sql_tables.specs.Rows as spec;

    type Part = Pattern;

    ghost text = { join_with_byte 0x2C };

    ghost row_with = { λ key. spec.head_row key.client key.zone };

    fn insertion() -> &'static str {
        "INSERT INTO zone_head (client, zone, patterns) VALUES (?1, ?2, ?3)"
    }

    #[tactic(auto, using(crate::proofs::RoomFacts::text_short))]
    fn joined(alloc: Global, patterns: &[Pattern]) -> Result<Vec<u8>, NoMemory> {
        joined_patterns(alloc, patterns)
    }

    ghost one = { refl };

    ghost alone = { λ key joined. refl };
}
