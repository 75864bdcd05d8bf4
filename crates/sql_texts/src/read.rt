//! The texts that read several tables or count, and those that several crates use. Each that may find several rows
//! orders them. The other texts of one table are in its file of `sql_reads`.
#![tactic(auto, unfolding(sqlite::specs::Listing::understood, sqlite_tied::specs::Compute::everything))]

ghost use Rattle.std.specs.Prelude.{codes, [], ◌∷◌};
ghost use Rattle.sql_texts.specs.Meaning.{Reads};
ghost use Rattle.sql_texts.specs.Reads as read;
ghost use Rattle.sql_texts.specs.Schema.{bureau, bureau_1, hold_columns};

/// The version of the tables. The text means the same in a file of version 1.
pub fn version() -> &'static str
    ensures reads { Reads bureau result.now read.version (codes "version" ∷ []) 0 }
    ensures version_1 { Reads bureau_1 result.now read.version (codes "version" ∷ []) 0 }
{
    "SELECT version FROM bureau_version ORDER BY one"
}

/// All callers, ascending by name, each with its token.
pub fn callers() -> &'static str
    ensures { Reads bureau result.now read.callers (codes "name" ∷ codes "token" ∷ []) 0 }
{
    "SELECT name, token FROM caller ORDER BY name"
}

/// The number and the reply of the last change of the caller ?1.
pub fn last_change() -> &'static str
    ensures reads { Reads bureau result.now read.last_change (codes "number" ∷ codes "body" ∷ []) 1 }
{
    "SELECT number, body FROM last_change WHERE caller = ?1 ORDER BY caller"
}

/// The catalogued SYSMODs that supersede ?1, ascending.
pub fn superseders() -> &'static str
    ensures { Reads bureau result.now read.superseders (codes "id" ∷ []) 1 }
{
    "SELECT p.id FROM sysmod_sup AS p JOIN sysmod AS s ON s.id = p.id WHERE p.member = ?1 \
     ORDER BY p.id"
}

/// The number of SYSMODs that are catalogued. It goes through all of them.
pub fn sysmod_count() -> &'static str
    ensures { Reads bureau result.now read.sysmod_count (codes "count(*)" ∷ []) 0 }
{
    "SELECT count(*) FROM sysmod"
}

/// The number of holds. It goes through all of them.
pub fn hold_count() -> &'static str
    ensures { Reads bureau result.now read.hold_count (codes "count(*)" ∷ []) 0 }
{
    "SELECT count(*) FROM hold_row"
}

/// The zones of the client ?1, ascending by name, each with the number of its rows. It goes through all of them.
pub fn zones() -> &'static str
    ensures { Reads bureau result.now read.zones (codes "zone" ∷ codes "sysmods" ∷ []) 1 }
{
    "SELECT h.zone, (SELECT count(*) FROM zone_row AS r \
     WHERE r.client = h.client AND r.zone = h.zone) AS sysmods FROM zone_head AS h \
     WHERE h.client = ?1 ORDER BY h.zone"
}

/// The number of zones that the client ?1 has.
pub fn zone_count() -> &'static str
    ensures { Reads bureau result.now read.zone_count (codes "count(*)" ∷ []) 1 }
{
    "SELECT count(*) FROM zone_head WHERE client = ?1"
}

/// The holds of the kind ?3 on SYSMODs that are installed in the zone ?2 of the client ?1, in the
/// order of their keys: all columns of each.
pub fn held_in() -> &'static str
    ensures { Reads bureau result.now read.held_in hold_columns 3 }
{
    "SELECT h.* FROM zone_row AS z JOIN hold_row AS h ON h.sysmod = z.sysmod \
     WHERE z.client = ?1 AND z.zone = ?2 AND z.state < 2 AND h.kind = ?3 \
     ORDER BY h.sysmod, h.kind, h.reason"
}
