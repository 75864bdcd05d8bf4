//! The table `sysmod_sup`: the ids that a SYSMOD supersedes.
ghost use Rattle.sql_reads.specs.Columns.{ShowsAll};
ghost use Rattle.sql_texts.specs.Schema as schema;

use crate::all_columns::AllColumns;
use crate::listed::Listed;
use crate::scan::Scanned;
use crate::selection::Selection;
use catalogue::Ids;
use mcs_reader::Id;
use sql_rows::Sups;

impl Selection<Id> for Sups {
    ghost use Rattle.std.specs.Prelude.{◌∷◌, [], codes};

    ghost shown = { 1 ∷ [] };

    ghost names = { codes "member" ∷ [] };

    ghost order = { 2 ∷ [] };

    #[tactic(auto, unfolding(sqlite::specs::Listing::understood, sqlite_tied::specs::Compute::everything))]
    fn text() -> &'static str {
        "SELECT member FROM sysmod_sup WHERE id = ?1 ORDER BY member"
    }
}

impl Listed<Id> for Sups {
    ghost use Rattle.std.specs.Prelude.{◌≡◌, IfSome};
    ghost use Rattle.catalogue.specs.Ids.{Ascend};
    ghost use Rattle.sql_tables.specs.Stored.{sup_of};
    ghost use Rattle.sql_tables.proofs.RecordFacts.{superseded_read};

    type Item = Id;

    type List = Ids;

    ghost items = { λ ids. ids };

    ghost tells = { λ id stored ids. ids ≡ sup_of stored.sups id };

    fn in_order(ids: Vec<Id>) -> Option<Ids>
        ensures same { IfSome result (λ list. list ≡ ids.items) }
        ensures ascend { IfSome result (λ list. Ascend list) }
    {
        Ids::from_ascending(ids)
    }

    ghost told = { λ id stored whole. superseded_read stored.sups id };
}

impl Scanned for Sups {
    ghost use Rattle.std.specs.Prelude.{◌∷◌, [], codes, refl};

    ghost scan_shown = { 1 ∷ 0 ∷ [] };

    ghost scan_names = { codes "member" ∷ codes "id" ∷ [] };

    ghost scan_order = { 1 ∷ 2 ∷ [] };

    ghost at = { 1 };

    #[tactic(auto, unfolding(sqlite::specs::Listing::understood, sqlite_tied::specs::Compute::everything))]
    fn scan_text() -> &'static str {
        "SELECT member, id FROM sysmod_sup WHERE id >= ?1 AND id <= ?2 ORDER BY id, member"
    }

    fn place() -> usize {
        1
    }

    ghost placed = { λ row. refl };
}

impl AllColumns for Sups {
    #[tactic(auto, unfolding(sqlite::specs::Listing::understood, sqlite_tied::specs::Compute::everything))]
    fn all_columns() -> &'static str
        ensures here { ShowsAll schema.bureau schema.sysmod_sup result.now }
        ensures version_1 { ShowsAll schema.bureau_1 schema.sysmod_sup result.now }
    {
        "SELECT id, member FROM sysmod_sup"
    }
}
