//! The table `sysmod_cond`: the ids that a record requires under a condition.
#![tactic(auto, unfolding(sqlite::specs::Listing::understood, sqlite_tied::specs::Compute::everything))]

use super::{Asked, Bare, Deletes, InParts, Leaves, Several};
use crate::{delete, texts};
use catalogue::CondNeed;
use mcs_reader::Id;
use sql_rows::{Conds, id_of};
use sqlite::types::ValueRef;
use sqlite::{Alter, Error, Transaction};

impl Deletes<Id> for Conds {
    ghost use Rattle.std.specs.Prelude.{refl};

    fn deletion() -> &'static str {
        "DELETE FROM sysmod_cond WHERE id = ?1"
    }

    ghost accepts = { λ id. refl };
}

impl Asked<Id> for Conds {
    fn question() -> &'static str {
        "SELECT rowid FROM sysmod_cond WHERE id = ?1"
    }
}

impl Bare for Conds {
    fn first() -> &'static str {
        "SELECT rowid FROM sysmod_cond LIMIT 1"
    }
}

impl Leaves<Id> for Conds {
    fn leave<S: Alter>(tx: &mut Transaction<'_, S>, id: &Id) -> Result<(), Error> {
        delete::rows_of::<Id, Conds, S>(tx, id)
    }
}

impl Several<Id> for Conds {
    ghost use Rattle.std.specs.Prelude.{◌≡◌, ◌∷◌, [], refl};
    ghost use Rattle.mcs_reader.specs.Id.{IsId};
    ghost use Rattle.sql_tables.specs.Rows as spec;
    ghost use Rattle.sql_tables.specs.Values.{id_value};
    ghost use Rattle.sql_rows.specs.Parts.{is_of_three};
    ghost use Rattle.sql_texts.specs.Schema as schema;
    ghost use Rattle.sql_writes.specs.Many.{AreGiven};
    ghost use Rattle.sql_rows.proofs.AbsentFacts.{unique_by};
    ghost use Rattle.sql_rows.proofs.CountFacts.{one_only, room_of_one};
    ghost use Rattle.sql_rows.proofs.FittingFacts.{few, row_fits, stays};

    type Item = CondNeed;

    ghost own = { 2 };

    ghost values_of = { λ cond. id_value cond.fmid ∷ id_value cond.need ∷ [] };

    ghost row_of = { spec.cond_row };

    ghost is_fit = { λ cond. IsId cond.fmid × IsId cond.need };

    ghost is_short = { λ cond. Unit {0} };

    ghost is_same = { λ id cond. is_of_three id cond.fmid cond.need };

    ghost counts = { λ count. count ≡ 1 };

    fn columns<'a>(cond: &'a CondNeed) -> [ValueRef<'a>; 5] {
        [
            id_of(&cond.fmid),
            id_of(&cond.need),
            ValueRef::Null,
            ValueRef::Null,
            ValueRef::Null,
        ]
    }

    fn width() -> usize {
        2
    }

    ghost room = { λ count is. room_of_one 1 2 count is refl };

    ghost given = { λ id conds is. one_only
        (AreGiven schema.sysmod_cond 1 2 (id_value id ∷ []) (λ cond. id_value cond.fmid ∷ id_value cond.need ∷ [])
        (spec.cond_row id))
        (λ a. refl) conds is };

    ghost cast = { λ id cond. stays schema.sysmod_cond (spec.cond_row id cond) refl };

    ghost fits = { λ id cond is here short. row_fits schema.sysmod_cond (7 ∷ 7 ∷ 7 ∷ []) (spec.cond_row id cond) refl
        (λ n. refl) (λ n. refl) (few id is, (few cond.fmid here.0, (few cond.need here.1, tt))) };

    ghost unique = { λ db others id cond is here none. unique_by schema.sysmod_cond db others
        id (cond.fmid ∷ cond.need ∷ []) (spec.cond_row id cond) refl
        ((is, refl), ((here.0, refl), ((here.1, refl), tt))) none };
}

// One row a statement: a connection keeps 64 texts compiled, and with more than one text here it would have to
// compile others anew.
impl InParts<Id> for Conds {
    ghost use Rattle.std.proofs.Common.{le_antisymm};

    ghost most = { 1 };

    fn most() -> usize {
        1
    }

    fn insertion(count: usize) -> &'static str {
        texts::conds(count)
    }

    ghost may_come = { λ count some few. le_antisymm few some };
}
