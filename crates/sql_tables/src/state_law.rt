//! Laws on the databases that are the bureau's own.
ghost use Rattle.sqlite.specs.Effect.{Database, IsDatabase};
ghost use Rattle.sql_tables.specs.Earlier.{AreOfVersion1, IsOfVersion1};
ghost use Rattle.sql_tables.specs.Ours.{AreOurs, IsOurs};
ghost use Rattle.sql_tables.specs.Writing.{IsKnown};

/// A database of the bureau's own is one that the statements of a change know.
pub fn known()
    ensures { (database : Database) → IsOurs database → IsKnown database }
{}

/// The trees alone decide whose a database is. A connection may have taken any schema for that of a database. If the
/// database obeys it and has trees of the bureau's own, it has the bureau's tables, of version 2 or of version 1.
pub fn found()
    ensures ours { (database : Database) → IsDatabase database → AreOurs database.trees → IsOurs database }
    ensures earlier { (database : Database) → IsDatabase database → AreOfVersion1 database.trees
        → IsOfVersion1 database }
{}
