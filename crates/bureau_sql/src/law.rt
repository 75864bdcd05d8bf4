//! Laws on the files of a store, and on the callers of a new one.
ghost use Rattle.std.specs.Prelude.{◌≡◌, ℕ, List, Ok};
ghost use Rattle.bureau_store.specs.Callers.{callers_of};
ghost use Rattle.bureau_store.specs.Tables.{Tables};
ghost use Rattle.bureau_store.specs.declared.caller.CallerRow.{CallerRow};
ghost use Rattle.sqlite.specs.Effect.{Database, IsDatabase};
ghost use Rattle.sqlite.specs.Files.{HoldsDatabase};
ghost use Rattle.sqlite_trees.specs.Tree.{Trees};
ghost use Rattle.sqlite_wal.specs.Recovery.{Image};
ghost use Rattle.sql_tables.specs.Earlier.{IsOfVersion1, held_by_version_1};
ghost use Rattle.sql_tables.specs.Ours.{IsOurs, held_by};
ghost use Rattle.sql_tables.specs.Stored.{tables_of};
ghost use Rattle.sql_writes.specs.Making.{AreFit};
ghost use Rattle.bureau_sql.specs.Files.{HoldsEarlier, HoldsStore};

/// An opening finds the database which the files hold. If that is the bureau's own, the opening finds it so, with
/// its tables: of this version, or of version 1.
pub fn found()
    ensures ours { (image : Image) (database : Database) (this : Tables) → IsDatabase database
        → ((trees : Trees) → HoldsDatabase image trees → database.trees ≡ trees)
        → HoldsStore image this → IsOurs database × (tables_of (held_by database) ≡ this) }
    ensures earlier { (image : Image) (database : Database) (this : Tables) → IsDatabase database
        → ((trees : Trees) → HoldsDatabase image trees → database.trees ≡ trees)
        → HoldsEarlier image this
        → IsOfVersion1 database × (tables_of (held_by_version_1 database) ≡ this) }
{}

/// The callers of a callers file are fit to be written: no rule of the tables refuses them.
pub fn callers_fit()
    ensures { (text : List ℕ) (rows : List CallerRow) → callers_of text ≡ Ok rows → AreFit rows }
{}
