//! The texts that make the tables of version 2. Each needs those before it to have run.
#![tactic(auto, unfolding(crate::proofs::OnLiterals::creation_on_literals))]

ghost use Rattle.sql_texts.specs.Creation.{CreateAll, creations};
ghost use Rattle.sql_texts.specs.Meaning.{MakesIndex, MakesTable};
ghost use Rattle.sql_texts.specs.Schema as schema;
ghost use Rattle.sql_texts.specs.Schema.{bureau, bureau_1, made};

/// The version of the tables, in one row.
pub fn bureau_version() -> &'static str
    ensures { MakesTable (made 0 0) result.now schema.bureau_version (made 1 0) }
{
    "CREATE TABLE bureau_version (one INTEGER PRIMARY KEY CHECK (one = 1), version INTEGER \
     NOT NULL) STRICT"
}

/// The callers with their tokens.
pub fn caller() -> &'static str
    ensures { MakesTable (made 1 0) result.now schema.caller (made 2 2) }
{
    "CREATE TABLE caller (name TEXT NOT NULL PRIMARY KEY, token TEXT NOT NULL UNIQUE) STRICT"
}

/// The number of each caller's last change and the reply that is kept for it.
pub fn last_change() -> &'static str
    ensures { MakesTable (made 2 2) result.now schema.last_change (made 3 3) }
{
    "CREATE TABLE last_change (caller TEXT NOT NULL PRIMARY KEY, number INTEGER NOT NULL \
     CHECK (number > 0), body BLOB NOT NULL) STRICT"
}

/// The records of the catalogue, without the ids that they supersede and those that they require under a condition.
pub fn sysmod() -> &'static str
    ensures { MakesTable (made 3 3) result.now schema.sysmod (made 4 4) }
{
    "CREATE TABLE sysmod (id TEXT NOT NULL PRIMARY KEY, kind INTEGER NOT NULL CHECK (kind \
     BETWEEN 0 AND 3), fmids TEXT NOT NULL, pre TEXT NOT NULL, req TEXT NOT NULL) STRICT"
}

/// The ids that each record supersedes.
pub fn sysmod_sup() -> &'static str
    ensures { MakesTable (made 4 4) result.now schema.sysmod_sup (made 5 5) }
{
    "CREATE TABLE sysmod_sup (id TEXT NOT NULL, member TEXT NOT NULL, PRIMARY KEY (id, \
     member)) STRICT"
}

/// The index by which superseders are found.
pub fn by_member() -> &'static str
    ensures { MakesIndex (made 5 5) result.now 4 schema.sysmod_sup schema.by_member (made 5 6) }
{
    "CREATE INDEX by_member ON sysmod_sup (member, id)"
}

/// The holds.
pub fn hold_row() -> &'static str
    ensures { MakesTable (made 5 6) result.now schema.hold_row (made 6 7) }
{
    "CREATE TABLE hold_row (sysmod TEXT NOT NULL, kind INTEGER NOT NULL CHECK (kind BETWEEN \
     0 AND 3), reason TEXT NOT NULL, fmid TEXT NOT NULL, class TEXT NOT NULL, dated INTEGER \
     NOT NULL, resolver TEXT NOT NULL, categories TEXT NOT NULL, PRIMARY KEY (sysmod, kind, \
     reason)) STRICT"
}

/// The zones of the clients, with the patterns of the fix categories that each asks for.
pub fn zone_head() -> &'static str
    ensures { MakesTable (made 6 7) result.now schema.zone_head (made 7 8) }
{
    "CREATE TABLE zone_head (client TEXT NOT NULL, zone TEXT NOT NULL, patterns TEXT NOT \
     NULL, PRIMARY KEY (client, zone)) STRICT"
}

/// The SYSMODs of the zones, with their states.
pub fn zone_row() -> &'static str
    ensures { MakesTable (made 7 8) result.now schema.zone_row (made 8 9) }
{
    "CREATE TABLE zone_row (client TEXT NOT NULL, zone TEXT NOT NULL, sysmod TEXT NOT NULL, \
     state INTEGER NOT NULL CHECK (state BETWEEN 0 AND 2), PRIMARY KEY (client, zone, \
     sysmod)) STRICT"
}

/// The SYSMODs that each client has received.
pub fn received_list() -> &'static str
    ensures { MakesTable (made 8 9) result.now schema.received_list bureau_1 }
{
    "CREATE TABLE received_list (client TEXT NOT NULL PRIMARY KEY, ids TEXT NOT NULL) STRICT"
}

/// The ids that each record requires if a function is installed. A file of version 1 has all tables but this.
pub fn sysmod_cond() -> &'static str
    ensures { MakesTable bureau_1 result.now schema.sysmod_cond bureau }
{
    "CREATE TABLE sysmod_cond (id TEXT NOT NULL, fmid TEXT NOT NULL, member TEXT NOT NULL, \
     PRIMARY KEY (id, fmid, member)) STRICT"
}

/// The texts that run after that of the version's table, in their order. Each makes its table, or an index on a table
/// that is there.
#[tactic(auto)]
pub fn others() -> [&'static str; 10]
    ensures { CreateAll 1 0 creations result }
{
    [
        caller(),
        last_change(),
        sysmod(),
        sysmod_sup(),
        by_member(),
        hold_row(),
        zone_head(),
        zone_row(),
        received_list(),
        sysmod_cond(),
    ]
}
