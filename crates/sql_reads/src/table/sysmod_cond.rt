//! The table `sysmod_cond`: the requisites of a SYSMOD under a condition.

use crate::all_columns::AllColumns;
use crate::entry::{Entry, Ordered};
use crate::listed::Listed;
use crate::scan::Scanned;
use crate::selection::Selection;
use catalogue::{CondNeed, CondNeeds};
use mcs_reader::Id;
use sql_rows::Conds;
use sql_tables::{NoMemory, cond_in};
use sqlite::Row;
use std::alloc::Global;

impl Ordered for CondNeed {
    ghost use Rattle.catalogue.specs.Conditional.{CondsAscend, cond_cmp};
    ghost use Rattle.catalogue.proofs.IdFacts.{conds_total};

    ghost cmp = { cond_cmp };

    ghost ascend = { CondsAscend };

    fn is_below(&self, next: &CondNeed) -> bool {
        self.cmp(next).is_lt()
    }

    ghost total = { conds_total };

    ghost ascends = { λ items. (λ ascend. ascend, λ ascend. ascend) };
}

impl Entry for CondNeed {
    ghost use Rattle.sql_tables.specs.Rows.{cond_found};

    ghost found = { cond_found };

    fn in_row(_alloc: Global, row: &Row) -> Result<Option<CondNeed>, NoMemory> {
        Ok(cond_in(row))
    }
}

impl Selection<Id> for Conds {
    ghost use Rattle.std.specs.Prelude.{◌∷◌, [], codes};

    ghost shown = { 1 ∷ 2 ∷ [] };

    ghost names = { codes "fmid" ∷ codes "member" ∷ [] };

    ghost order = { 2 ∷ 3 ∷ [] };

    #[tactic(auto, unfolding(sqlite::specs::Listing::understood, sqlite_tied::specs::Compute::everything))]
    fn text() -> &'static str {
        "SELECT fmid, member FROM sysmod_cond WHERE id = ?1 ORDER BY fmid, member"
    }
}

impl Listed<Id> for Conds {
    ghost use Rattle.std.specs.Prelude.{◌≡◌, IfSome};
    ghost use Rattle.catalogue.specs.Conditional.{CondsAscend};
    ghost use Rattle.sql_tables.specs.Stored.{conds_of};
    ghost use Rattle.sql_tables.proofs.RecordFacts.{conditional_read};

    type Item = CondNeed;

    type List = CondNeeds;

    ghost items = { λ conds. conds };

    ghost tells = { λ id stored conds. conds ≡ conds_of stored.conds id };

    fn in_order(conds: Vec<CondNeed>) -> Option<CondNeeds>
        ensures same { IfSome result (λ list. list ≡ conds.items) }
        ensures ascend { IfSome result (λ list. CondsAscend list) }
    {
        CondNeeds::from_ascending(conds)
    }

    ghost told = { λ id stored whole. conditional_read stored.conds id };
}

impl Scanned for Conds {
    ghost use Rattle.std.specs.Prelude.{◌∷◌, [], codes, refl};

    ghost scan_shown = { 1 ∷ 2 ∷ 0 ∷ [] };

    ghost scan_names = { codes "fmid" ∷ codes "member" ∷ codes "id" ∷ [] };

    ghost scan_order = { 1 ∷ 2 ∷ 3 ∷ [] };

    ghost at = { 2 };

    #[tactic(auto, unfolding(sqlite::specs::Listing::understood, sqlite_tied::specs::Compute::everything))]
    fn scan_text() -> &'static str {
        "SELECT fmid, member, id FROM sysmod_cond WHERE id >= ?1 AND id <= ?2 \
         ORDER BY id, fmid, member"
    }

    fn place() -> usize {
        2
    }

    ghost placed = { λ row. refl };
}

impl AllColumns for Conds {
    #[tactic(auto, unfolding(sqlite::specs::Listing::understood, sqlite_tied::specs::Compute::everything))]
    fn all_columns() -> &'static str {
        "SELECT id, fmid, member FROM sysmod_cond"
    }
}
