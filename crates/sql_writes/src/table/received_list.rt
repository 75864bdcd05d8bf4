//! The table `received_list`: the SYSMODs that clients have received.
#![tactic(auto, unfolding(sqlite::specs::Listing::understood, sqlite_tied::specs::Compute::everything))]

use super::{Asked, Deletes, Joined, Leaves, Several};
use crate::delete;
use mcs_reader::Id;
use sql_rows::Received;
use sql_tables::{NoMemory, joined_ids};
use sqlite::types::ValueRef;
use sqlite::{Alter, Error, Transaction};
use std::alloc::Global;

impl Deletes<Id> for Received {
    ghost use Rattle.std.specs.Prelude.{refl};

    fn deletion() -> &'static str {
        "DELETE FROM received_list WHERE client = ?1"
    }

    ghost accepts = { λ id. refl };
}

impl Asked<Id> for Received {
    fn question() -> &'static str {
        "SELECT rowid FROM received_list WHERE client = ?1"
    }
}

impl Leaves<Id> for Received {
    fn leave<S: Alter>(tx: &mut Transaction<'_, S>, client: &Id) -> Result<(), Error> {
        delete::rows_of::<Id, Received, S>(tx, client)
    }
}

impl Several<Id> for Received {
    ghost use Rattle.std.specs.Prelude.{◌≡◌, ◌≤◌, ◌∷◌, [], length, refl};
    ghost use Rattle.sqlite_value.specs.declared.value.Value.TheVariants.{Text};
    ghost use Rattle.sql_texts.specs.Schema as schema;
    ghost use Rattle.sql_tables.specs.Stored.{is_of};
    ghost use Rattle.sql_tables.specs.Values.{id_value};
    ghost use Rattle.sql_writes.specs.Many.{AreGiven};
    ghost use Rattle.sql_rows.proofs.AbsentFacts.{unique_by};
    ghost use Rattle.sql_rows.proofs.CountFacts.{one_only, room_of_one};
    ghost use Rattle.sql_rows.proofs.FittingFacts.{few, row_fits, stays};

    type Item = Vec<u8>;

    ghost own = { 1 };

    ghost values_of = { λ joined. Text joined.items ∷ [] };

    ghost row_of = { λ client joined. id_value client ∷ Text joined.items ∷ [] };

    ghost is_fit = { λ joined. Unit {0} };

    ghost is_short = { λ joined. length joined.items ≤ 300000000 };

    ghost is_same = { λ client joined. is_of client };

    ghost counts = { λ count. count ≡ 1 };

    fn columns<'a>(joined: &'a Vec<u8>) -> [ValueRef<'a>; 5] {
        [
            ValueRef::Text(joined.as_slice()),
            ValueRef::Null,
            ValueRef::Null,
            ValueRef::Null,
            ValueRef::Null,
        ]
    }

    fn width() -> usize {
        1
    }

    ghost room = { λ count is. room_of_one 1 1 count is refl };

    ghost given = { λ client all is. one_only
        (AreGiven schema.received_list 1 1 (id_value client ∷ []) (λ joined. Text joined.items ∷ [])
        (λ joined. id_value client ∷ Text joined.items ∷ []))
        (λ a. refl) all is };

    ghost cast = { λ client joined. stays schema.received_list (id_value client ∷ Text joined.items ∷ []) refl };

    ghost fits = { λ client joined is here short. row_fits schema.received_list (7 ∷ 300000000 ∷ [])
        (id_value client ∷ Text joined.items ∷ []) refl (λ n. refl) (λ n. refl) (few client is, (short, tt)) };

    ghost unique = { λ db others client joined is here none. unique_by schema.received_list db others
        client [] (id_value client ∷ Text joined.items ∷ []) refl ((is, refl), tt) none };
}

impl Joined<Id> for Received {
    ghost use Rattle.std.specs.Prelude.{map, refl};
    ghost use Rattle.std.specs.List.{join_with_byte};
    ghost use Rattle.mcs_reader.specs.Id.{text_of};
    ghost use Rattle.sql_tables.specs.Rows as spec;

    type Part = Id;

    ghost text = { λ ids. join_with_byte 0x2C (map text_of ids) };

    ghost row_with = { spec.received_row };

    fn insertion() -> &'static str {
        "INSERT INTO received_list (client, ids) VALUES (?1, ?2)"
    }

    #[tactic(auto, using(crate::proofs::RoomFacts::text_short))]
    fn joined(alloc: Global, ids: &[Id]) -> Result<Vec<u8>, NoMemory> {
        joined_ids(alloc, ids)
    }

    ghost one = { refl };

    ghost alone = { λ client joined. refl };
}
