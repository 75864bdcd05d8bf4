//! The texts that insert the rows of lists, each into one table: several rows at once if many come.
ghost use Rattle.std.specs.Prelude.{◌≡◌, ◌⊎◌, ◌<◌, ◌≤◌, ◌+◌, ◌*◌};
ghost use Rattle.sql_texts.specs.Schema.{bureau};
ghost use Rattle.sql_writes.specs.Many.{MeansBy, insert_alike, parameters_to};

/// One row of a record, or eight: the SYSMOD ?1, its kind ?2, its functions ?3, its PRE ?4 and its REQ ?5, and so on.
pub(crate) fn sysmods(count: usize) -> &'static str
    requires { (count ≡ 1) ⊎ (count ≡ 8) }
    ensures { MeansBy bureau result.now (insert_alike 3 0 5 count) (parameters_to (5 * count)) }
{
    match count {
        1 => "INSERT INTO sysmod (id, kind, fmids, pre, req) VALUES (?1, ?2, ?3, ?4, ?5)",
        _ => {
            "INSERT INTO sysmod (id, kind, fmids, pre, req) \
             VALUES (?1, ?2, ?3, ?4, ?5), (?6, ?7, ?8, ?9, ?10), (?11, ?12, ?13, ?14, ?15), \
             (?16, ?17, ?18, ?19, ?20), (?21, ?22, ?23, ?24, ?25), (?26, ?27, ?28, ?29, ?30), \
             (?31, ?32, ?33, ?34, ?35), (?36, ?37, ?38, ?39, ?40)"
        }
    }
}

// The texts for one row, for two, and so on up to eight.
const SUPS: [&str; 8] = [
    "INSERT INTO sysmod_sup (id, member) VALUES (?1, ?2)",
    "INSERT INTO sysmod_sup (id, member) VALUES (?1, ?2), (?3, ?4)",
    "INSERT INTO sysmod_sup (id, member) VALUES (?1, ?2), (?3, ?4), (?5, ?6)",
    "INSERT INTO sysmod_sup (id, member) VALUES (?1, ?2), (?3, ?4), (?5, ?6), (?7, ?8)",
    "INSERT INTO sysmod_sup (id, member) VALUES (?1, ?2), (?3, ?4), (?5, ?6), (?7, ?8), \
     (?9, ?10)",
    "INSERT INTO sysmod_sup (id, member) VALUES (?1, ?2), (?3, ?4), (?5, ?6), (?7, ?8), \
     (?9, ?10), (?11, ?12)",
    "INSERT INTO sysmod_sup (id, member) VALUES (?1, ?2), (?3, ?4), (?5, ?6), (?7, ?8), \
     (?9, ?10), (?11, ?12), (?13, ?14)",
    "INSERT INTO sysmod_sup (id, member) VALUES (?1, ?2), (?3, ?4), (?5, ?6), (?7, ?8), \
     (?9, ?10), (?11, ?12), (?13, ?14), (?15, ?16)",
];

/// So many rows of the ids that records supersede: the record ?1 and a SYSMOD that it supersedes ?2, ?3 with ?4 and
/// so on.
pub(crate) fn sups(count: usize) -> &'static str
    requires some { 0 < count }
    requires few { count ≤ 8 }
    ensures { MeansBy bureau result.now (insert_alike 4 0 2 count) (parameters_to (0 + 2 * count)) }
{
    SUPS[count - 1]
}

/// One row of the ids that a record requires under a condition: the record ?1, the function ?2 and the id that it
/// requires ?3.
pub(crate) fn conds(count: usize) -> &'static str
    requires some { 0 < count }
    requires few { count ≤ 1 }
    ensures { MeansBy bureau result.now (insert_alike 9 1 2 count) (parameters_to (1 + 2 * count)) }
{
    "INSERT INTO sysmod_cond (id, fmid, member) VALUES (?1, ?2, ?3)"
}

// The texts for one row, for two, and so on up to eight.
const ZONE_ROWS: [&str; 8] = [
    "INSERT INTO zone_row (client, zone, sysmod, state) VALUES (?1, ?2, ?3, ?4)",
    "INSERT INTO zone_row (client, zone, sysmod, state) VALUES (?1, ?2, ?3, ?4), \
     (?1, ?2, ?5, ?6)",
    "INSERT INTO zone_row (client, zone, sysmod, state) VALUES (?1, ?2, ?3, ?4), \
     (?1, ?2, ?5, ?6), (?1, ?2, ?7, ?8)",
    "INSERT INTO zone_row (client, zone, sysmod, state) VALUES (?1, ?2, ?3, ?4), \
     (?1, ?2, ?5, ?6), (?1, ?2, ?7, ?8), (?1, ?2, ?9, ?10)",
    "INSERT INTO zone_row (client, zone, sysmod, state) VALUES (?1, ?2, ?3, ?4), \
     (?1, ?2, ?5, ?6), (?1, ?2, ?7, ?8), (?1, ?2, ?9, ?10), (?1, ?2, ?11, ?12)",
    "INSERT INTO zone_row (client, zone, sysmod, state) VALUES (?1, ?2, ?3, ?4), \
     (?1, ?2, ?5, ?6), (?1, ?2, ?7, ?8), (?1, ?2, ?9, ?10), (?1, ?2, ?11, ?12), \
     (?1, ?2, ?13, ?14)",
    "INSERT INTO zone_row (client, zone, sysmod, state) VALUES (?1, ?2, ?3, ?4), \
     (?1, ?2, ?5, ?6), (?1, ?2, ?7, ?8), (?1, ?2, ?9, ?10), (?1, ?2, ?11, ?12), \
     (?1, ?2, ?13, ?14), (?1, ?2, ?15, ?16)",
    "INSERT INTO zone_row (client, zone, sysmod, state) VALUES (?1, ?2, ?3, ?4), \
     (?1, ?2, ?5, ?6), (?1, ?2, ?7, ?8), (?1, ?2, ?9, ?10), (?1, ?2, ?11, ?12), \
     (?1, ?2, ?13, ?14), (?1, ?2, ?15, ?16), (?1, ?2, ?17, ?18)",
];

/// So many rows of the zone ?2 of the client ?1: the SYSMOD ?3 with its state ?4, ?5 with ?6 and so on.
pub(crate) fn zone_rows(count: usize) -> &'static str
    requires some { 0 < count }
    requires few { count ≤ 8 }
    ensures { MeansBy bureau result.now (insert_alike 7 2 2 count) (parameters_to (2 + 2 * count)) }
{
    ZONE_ROWS[count - 1]
}
