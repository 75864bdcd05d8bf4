//! What a store has read of its callers and clients, as it is kept.
use crate::kept::Weighs;
use bureau_store::Caller;
use mcs_reader::Id;
use std::marker::Model;
use zone_lists::ZoneRow;

// The bytes that are counted for an answer, besides those of a token, 16 for each zone and 8 for each row.
const EACH: usize = 256;

/// Whose token this is.
#[derive(Drop)]
pub(crate) struct TokenRead {
    pub(crate) token: Vec<u8>,
    pub(crate) caller: Caller,
}

impl Model for TokenRead {
    ghost use Rattle.bureau_sql.specs.Recent.{TokenRead};
    ghost use Rattle.bureau_store.specs.Caller.{IsProper};

    ghost Value = { TokenRead };

    ghost view = { λ read. record { token = read.token.items; caller = read.caller } };

    ghost invariant = { λ read. IsProper read.caller };
}

impl Weighs for TokenRead {
    fn bytes(&self) -> usize {
        self.token.len().saturating_add(EACH)
    }
}

/// The zones of a client, each with the number of its rows.
#[derive(Drop)]
pub(crate) struct ZonesRead {
    pub(crate) client: Id,
    pub(crate) zones: Vec<(Id, u64)>,
}

impl Model for ZonesRead {
    ghost use Rattle.std.specs.Prelude.{map};
    ghost use Rattle.bureau_sql.specs.Recent.{ZonesRead};
    ghost use Rattle.bureau_store.specs.Tables.{NamesAscend};

    ghost Value = { ZonesRead };

    ghost view = { λ read. record { client = read.client; zones = read.zones.items } };

    ghost invariant = { λ read. NamesAscend (map (λ zone. zone.0) read.zones.items) };
}

impl Weighs for ZonesRead {
    fn bytes(&self) -> usize {
        self.zones.len().saturating_mul(16).saturating_add(EACH)
    }
}

/// The rows of a client's zone.
#[derive(Drop)]
pub(crate) struct RowsRead {
    pub(crate) client: Id,
    pub(crate) zone: Id,
    pub(crate) rows: Vec<ZoneRow>,
}

impl Model for RowsRead {
    ghost use Rattle.bureau_sql.specs.Recent.{RowsRead};
    ghost use Rattle.zone_lists.specs.ZoneList.{RowsAscend};

    ghost Value = { RowsRead };

    ghost view = { λ read. record { client = read.client; zone = read.zone; rows = read.rows.items } };

    ghost invariant = { λ read. RowsAscend read.rows.items };
}

impl Weighs for RowsRead {
    fn bytes(&self) -> usize {
        self.rows.len().saturating_mul(8).saturating_add(EACH)
    }
}
