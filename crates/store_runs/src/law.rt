//! A law on the files after an `init` that was stopped.
ghost use Rattle.std.specs.Prelude.{◌≡◌, ℕ, List};
ghost use Rattle.sqlite.specs.Effect.{Database, IsDatabase};
ghost use Rattle.sqlite.specs.Files.{HoldsDatabase};
ghost use Rattle.sqlite_trees.specs.Tree.{Trees};
ghost use Rattle.sqlite_wal.specs.Recovery.{Image};
ghost use Rattle.sql_writes.specs.Making.{IsEmpty};
ghost use Rattle.bureau_sql.specs.Files.{HoldTrees};
ghost use Rattle.store_runs.specs.Keeping.{AreMadeFor, HasNoTables, HoldCallers};

/// A run of `init` that was stopped, or refused, may leave what it was to make, or a database without tables
/// (`KeepsMade`). Then the files hold the bureau's own store with the callers of the file, as after a run that
/// ended well. Or an opening that finds the database finds it empty, and the next `init` isn't told that there are
/// tables (44).
pub fn left_by_init()
    ensures made { (source : List ℕ) (image : Image)
        → HoldTrees (AreMadeFor source) image → HoldCallers source image }
    ensures empty { (image : Image) (database : Database) (trees : Trees) → IsDatabase database
        → ((trees : Trees) → HoldsDatabase image trees → database.trees ≡ trees)
        → HoldsDatabase image trees → HasNoTables trees → IsEmpty database }
{}
