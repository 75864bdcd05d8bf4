//! The tables: the place of each in the schema and in the store. The schema of `sql_texts` names their columns.

use crate::Table;

/// `caller`: the callers with their tokens.
pub enum Callers {}

impl Table for Callers {
    ghost use Rattle.std.specs.Prelude.{refl};
    ghost use Rattle.sql_texts.specs.Schema as schema;
    ghost use Rattle.sql_rows.specs.Standing.{stands_by};

    ghost index = { 1 };

    ghost table = { schema.caller };

    ghost rows = { λ stored. stored.callers };

    ghost with_rows = { λ rows stored. record stored { callers = rows } };

    ghost stands = { stands_by _ _ _ _ refl };
}

/// `last_change`: the last changes of callers.
pub enum LastChanges {}

impl Table for LastChanges {
    ghost use Rattle.std.specs.Prelude.{refl};
    ghost use Rattle.sql_texts.specs.Schema as schema;
    ghost use Rattle.sql_rows.specs.Standing.{stands_by};

    ghost index = { 2 };

    ghost table = { schema.last_change };

    ghost rows = { λ stored. stored.changes };

    ghost with_rows = { λ rows stored. record stored { changes = rows } };

    ghost stands = { stands_by _ _ _ _ refl };
}

/// `sysmod`: records, without the ids that they supersede and those that they require under a condition.
pub enum Sysmods {}

impl Table for Sysmods {
    ghost use Rattle.std.specs.Prelude.{refl};
    ghost use Rattle.sql_texts.specs.Schema as schema;
    ghost use Rattle.sql_rows.specs.Standing.{stands_by};

    ghost index = { 3 };

    ghost table = { schema.sysmod };

    ghost rows = { λ stored. stored.sysmods };

    ghost with_rows = { λ rows stored. record stored { sysmods = rows } };

    ghost stands = { stands_by _ _ _ _ refl };
}

/// `sysmod_sup`: the ids that records supersede.
pub enum Sups {}

impl Table for Sups {
    ghost use Rattle.std.specs.Prelude.{refl};
    ghost use Rattle.sql_texts.specs.Schema as schema;
    ghost use Rattle.sql_rows.specs.Standing.{stands_by};

    ghost index = { 4 };

    ghost table = { schema.sysmod_sup };

    ghost rows = { λ stored. stored.sups };

    ghost with_rows = { λ rows stored. record stored { sups = rows } };

    ghost stands = { stands_by _ _ _ _ refl };
}

/// `hold_row`: the holds.
pub enum Holds {}

impl Table for Holds {
    ghost use Rattle.std.specs.Prelude.{refl};
    ghost use Rattle.sql_texts.specs.Schema as schema;
    ghost use Rattle.sql_rows.specs.Standing.{stands_by};

    ghost index = { 5 };

    ghost table = { schema.hold_row };

    ghost rows = { λ stored. stored.holds };

    ghost with_rows = { λ rows stored. record stored { holds = rows } };

    ghost stands = { stands_by _ _ _ _ refl };
}

/// `zone_head`: the zones of clients, with their patterns.
pub enum Heads {}

impl Table for Heads {
    ghost use Rattle.std.specs.Prelude.{refl};
    ghost use Rattle.sql_texts.specs.Schema as schema;
    ghost use Rattle.sql_rows.specs.Standing.{stands_by};

    ghost index = { 6 };

    ghost table = { schema.zone_head };

    ghost rows = { λ stored. stored.heads };

    ghost with_rows = { λ rows stored. record stored { heads = rows } };

    ghost stands = { stands_by _ _ _ _ refl };
}

/// `zone_row`: the SYSMODs of zones with their states.
pub enum ZoneRows {}

impl Table for ZoneRows {
    ghost use Rattle.std.specs.Prelude.{refl};
    ghost use Rattle.sql_texts.specs.Schema as schema;
    ghost use Rattle.sql_rows.specs.Standing.{stands_by};

    ghost index = { 7 };

    ghost table = { schema.zone_row };

    ghost rows = { λ stored. stored.rows };

    ghost with_rows = { λ rows stored. record stored { rows = rows } };

    ghost stands = { stands_by _ _ _ _ refl };
}

/// `received_list`: the SYSMODs that clients have received.
pub enum Received {}

impl Table for Received {
    ghost use Rattle.std.specs.Prelude.{refl};
    ghost use Rattle.sql_texts.specs.Schema as schema;
    ghost use Rattle.sql_rows.specs.Standing.{stands_by};

    ghost index = { 8 };

    ghost table = { schema.received_list };

    ghost rows = { λ stored. stored.received };

    ghost with_rows = { λ rows stored. record stored { received = rows } };

    ghost stands = { stands_by _ _ _ _ refl };
}

/// `sysmod_cond`: the ids that records require if a function is installed.
pub enum Conds {}

impl Table for Conds {
    ghost use Rattle.std.specs.Prelude.{refl};
    ghost use Rattle.sql_texts.specs.Schema as schema;
    ghost use Rattle.sql_rows.specs.Standing.{stands_by};

    ghost index = { 9 };

    ghost table = { schema.sysmod_cond };

    ghost rows = { λ stored. stored.conds };

    ghost with_rows = { λ rows stored. record stored { conds = rows } };

    ghost stands = { stands_by _ _ _ _ refl };
}
