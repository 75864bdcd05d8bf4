//! A cache of what a store has read since its last change. It answers that again, so that a client that asks often
//! costs little.
ghost use Rattle.std.specs.Prelude.{◌≡◌, Contains, IfOk, IfSome, Some, map, option_map};
ghost use Rattle.std.specs.Result.{result_map_both};
ghost use Rattle.bureau_sql.specs.Recent.{HasMore, HasNew, HasNoMore, nothing_read};
ghost use Rattle.bureau_store.specs.Caller.{IsProper};
ghost use Rattle.bureau_store.specs.Tables.{NamesAscend};
ghost use Rattle.holddata.specs.HoldBook.{IsInKeyOrder};
ghost use Rattle.zone_lists.specs.ZoneList.{RowsAscend};

use crate::book::Book;
use crate::kept::Kept;
use crate::reads::{RowsRead, TokenRead, ZonesRead};
use bureau_store::{Caller, Effect};
use holddata::Hold;
use mcs_reader::Id;
use sql_reads::ReadFault;
use std::alloc::Global;
use std::hash::{BuildHasher, BuildHasherDefault, FoldHasher};
use std::marker::Model;
use zone_lists::ZoneRow;

// The most bytes that the answers of each kind take together, as they are counted: 64 MiB in all.
const TOKENS: usize = 4 << 20;

const ZONES: usize = 12 << 20;

const ROWS: usize = 48 << 20;

/// Answers of reads since the last change. Those that were used last are kept, as many as take 64 MiB. If there is no
/// memory to keep or to copy one, it is read anew. All holds are kept once.
#[derive(Drop)]
pub(crate) struct Recent {
    // By a number that is made of the token.
    tokens: Kept<u64, TokenRead>,
    // By the client.
    zones: Kept<Id, ZonesRead>,
    // By the client and the zone.
    rows: Kept<(Id, Id), RowsRead>,
    // How many SYSMODs and holds are published.
    counts: Option<(u64, u64)>,
    book: Book,
}

impl Model for Recent {
    ghost use Rattle.bureau_sql.specs.Recent.{RecentLists};

    ghost Value = { RecentLists };

    ghost view = { λ recent. record {
      tokens = recent.tokens;
      zones = recent.zones;
      rows = recent.rows;
      counts = recent.counts;
      book = recent.book;
    } };
}

impl Recent {
    /// Nothing was read yet.
    pub(crate) fn nothing() -> Self
        ensures { result ≡ nothing_read }
    {
        Recent {
            tokens: Kept::nothing(),
            zones: Kept::nothing(),
            rows: Kept::nothing(),
            counts: None,
            book: Book::unread(),
        }
    }

    /// Forgets all but the number of holds.
    pub(crate) fn forget(&mut self)
        ensures { self.new ≡ nothing_read }
    {
        self.tokens.clear();
        self.zones.clear();
        self.rows.clear();
        self.counts = None;
        self.book.forget();
    }

    /// Forgets all before a change: also the number of holds, if it is a publication.
    pub(crate) fn forget_before(&mut self, effect: &Effect<'_>)
        ensures { self.new ≡ nothing_read }
    {
        if matches!(effect, Effect::Publication { .. }) {
            self.book.forget_count();
        }
        self.forget();
    }
}

impl Recent {
    /// The caller whose token this is, if it was read. It counts as used last, as the others do below.
    pub(crate) fn caller_of(&mut self, token: &[u8]) -> Option<Caller>
        ensures read { IfSome result (λ caller. Contains self.old.tokens
            (record { token = token.now; caller = caller })) }
        ensures proper { IfSome result IsProper }
        ensures fewer { HasNoMore self.old self.new }
    {
        self.tokens.use_now(&number_of(token));
        self.caller_kept(token)
    }

    fn caller_kept(&self, token: &[u8]) -> Option<Caller>
        ensures read { IfSome result (λ caller. Contains self.now.tokens
            (record { token = token.now; caller = caller })) }
        ensures proper { IfSome result IsProper }
    {
        let read = self.tokens.get(&number_of(token))?;
        if read.token.as_slice() == token {
            Some(read.caller)
        } else {
            None
        }
    }

    /// The zones of a client, if they were read.
    pub(crate) fn zones_of(&mut self, alloc: Global, client: &Id) -> Option<Vec<(Id, u64)>>
        ensures read { IfSome result (λ zones. Contains self.old.zones
            (record { client = client.now; zones = zones.items })) }
        ensures ascend { IfSome result (λ zones. NamesAscend (map (λ zone. zone.0) zones.items)) }
        ensures fewer { HasNoMore self.old self.new }
    {
        self.zones.use_now(client);
        self.zones_kept(alloc, client)
    }

    fn zones_kept(&self, alloc: Global, client: &Id) -> Option<Vec<(Id, u64)>>
        ensures read { IfSome result (λ zones. Contains self.now.zones
            (record { client = client.now; zones = zones.items })) }
        ensures ascend { IfSome result (λ zones. NamesAscend (map (λ zone. zone.0) zones.items)) }
    {
        let read = self.zones.get(client)?;
        if read.client == *client {
            Vec::from_slice(alloc, &read.zones).ok()
        } else {
            None
        }
    }

    /// The rows of a client's zone, if they were read.
    pub(crate) fn rows_of(&mut self, alloc: Global, client: &Id, zone: &Id) -> Option<Vec<ZoneRow>>
        ensures read { IfSome result (λ rows. Contains self.old.rows
            (record { client = client.now; zone = zone.now; rows = rows.items })) }
        ensures ascend { IfSome result (λ rows. RowsAscend rows.items) }
        ensures fewer { HasNoMore self.old self.new }
    {
        self.rows.use_now(&(*client, *zone));
        self.rows_kept(alloc, client, zone)
    }

    fn rows_kept(&self, alloc: Global, client: &Id, zone: &Id) -> Option<Vec<ZoneRow>>
        ensures read { IfSome result (λ rows. Contains self.now.rows
            (record { client = client.now; zone = zone.now; rows = rows.items })) }
        ensures ascend { IfSome result (λ rows. RowsAscend rows.items) }
    {
        let read = self.rows.get(&(*client, *zone))?;
        if read.client == *client && read.zone == *zone {
            Vec::from_slice(alloc, &read.rows).ok()
        } else {
            None
        }
    }

    /// How many SYSMODs and holds are published, if that was read.
    pub(crate) fn counts(&self) -> Option<(u64, u64)>
        ensures { result ≡ self.now.counts }
    {
        self.counts
    }
}

impl Recent {
    /// Keeps whose token this is, if the read found it.
    pub(crate) fn keep_caller(
        &mut self,
        alloc: Global,
        token: &[u8],
        found: &Result<Option<Caller>, ReadFault>,
    )
        requires proper { IfOk found.now (λ caller. IfSome caller IsProper) }
        ensures tokens { HasMore (λ answer read. (answer ≡ Some read.caller) × (read.token ≡ token.now))
            found.now self.old.tokens self.new.tokens }
        ensures others { (self.new.zones ≡ self.old.zones) × (self.new.rows ≡ self.old.rows)
            × (self.new.counts ≡ self.old.counts) × (self.new.book ≡ self.old.book) }
    {
        let Ok(answer) = found else { return };
        let Some(caller) = answer else { return };
        let key = number_of(token);
        let Ok(token) = Vec::from_slice(alloc, token) else {
            return;
        };
        let caller = *caller;
        self.tokens
            .put(alloc, key, TokenRead { token, caller }, TOKENS);
    }

    /// Keeps the zones of a client, if the read found them.
    pub(crate) fn keep_zones(
        &mut self,
        alloc: Global,
        client: &Id,
        found: &Result<Vec<(Id, u64)>, ReadFault>,
    )
        requires ascend { IfOk found.now (λ zones. NamesAscend (map (λ zone. zone.0) zones.items)) }
        ensures zones { HasMore (λ answer read. read ≡ record { client = client.now; zones = answer.items })
            found.now self.old.zones self.new.zones }
        ensures others { (self.new.tokens ≡ self.old.tokens) × (self.new.rows ≡ self.old.rows)
            × (self.new.counts ≡ self.old.counts) × (self.new.book ≡ self.old.book) }
    {
        let Ok(zones) = found else { return };
        let Ok(zones) = Vec::from_slice(alloc, zones) else {
            return;
        };
        let client = *client;
        self.zones
            .put(alloc, client, ZonesRead { client, zones }, ZONES);
    }

    /// Keeps the rows of a client's zone, if the read found them.
    pub(crate) fn keep_rows(
        &mut self,
        alloc: Global,
        client: &Id,
        zone: &Id,
        found: &Result<Option<Vec<ZoneRow>>, ReadFault>,
    )
        requires ascend { IfOk found.now (λ rows. IfSome rows (λ rows. RowsAscend rows.items)) }
        ensures rows { HasMore (λ answer read. (option_map (λ rows. rows.items) answer ≡ Some read.rows)
            × (read.client ≡ client.now) × (read.zone ≡ zone.now))
            found.now self.old.rows self.new.rows }
        ensures others { (self.new.tokens ≡ self.old.tokens) × (self.new.zones ≡ self.old.zones)
            × (self.new.counts ≡ self.old.counts) × (self.new.book ≡ self.old.book) }
    {
        let Ok(answer) = found else { return };
        let Some(rows) = answer else { return };
        let Ok(rows) = Vec::from_slice(alloc, rows) else {
            return;
        };
        let (client, zone) = (*client, *zone);
        let read = RowsRead { client, zone, rows };
        self.rows.put(alloc, (client, zone), read, ROWS);
    }

    /// Keeps how many SYSMODs and holds are published, if the read found it.
    pub(crate) fn keep_counts(&mut self, found: &Result<(u64, u64), ReadFault>)
        ensures counts { HasNew (λ counts. counts) found.now self.old.counts self.new.counts }
        ensures others { (self.new.tokens ≡ self.old.tokens) × (self.new.zones ≡ self.old.zones)
            × (self.new.rows ≡ self.old.rows) × (self.new.book ≡ self.old.book) }
    {
        if let Ok(counts) = found {
            self.counts = Some(*counts);
        }
    }
}

impl Recent {
    /// All holds, if they are kept.
    pub(crate) fn holds(&self) -> Option<&[Hold]>
        ensures same { option_map (λ holds. holds.now) result ≡ self.now.book }
        ensures in_key_order { IfSome result (λ holds. IsInKeyOrder holds.now) }
    {
        self.book.holds()
    }

    /// Keeps all holds, if the read found them and they aren't too many. Joins are counted anew.
    pub(crate) fn keep_book(&mut self, found: Result<Vec<Hold>, ReadFault>) -> Result<(), ReadFault>
        requires in_key_order { IfOk found (λ holds. IsInKeyOrder holds.items) }
        ensures book { HasNew (λ holds. holds.items) found self.old.book self.new.book }
        ensures others { (self.new.tokens ≡ self.old.tokens) × (self.new.zones ≡ self.old.zones)
            × (self.new.rows ≡ self.old.rows) × (self.new.counts ≡ self.old.counts) }
        ensures told { result ≡ result_map_both (λ holds. tt) (λ fault. fault) found }
    {
        match found {
            Ok(holds) => {
                self.book.keep(holds);
                Ok(())
            }
            Err(fault) => {
                self.book.count_anew();
                Err(fault)
            }
        }
    }

    /// Counts a join of a client's zone with the table of holds, if its rows were read.
    pub(crate) fn count_join(&mut self, client: &Id, zone: &Id)
        ensures { self.new ≡ self.old }
    {
        let rows = self.row_count(client, zone);
        self.book.count_join(rows);
    }

    /// The number of a zone's rows, if they were read; else 0.
    pub(crate) fn row_count(&self, client: &Id, zone: &Id) -> usize {
        match self.rows.get(&(*client, *zone)) {
            Some(read) => read.rows.len(),
            None => 0,
        }
    }

    /// Whether all holds should be counted, since they aren't kept and many rows were joined with them, or will be with
    /// so many more.
    pub(crate) fn wants_book(&self, rows: usize) -> bool {
        self.book.is_wanted(rows)
    }

    /// Whether to read so many holds costs no more than the joins did, with one of so many rows, for which they would
    /// be used.
    pub(crate) fn is_book_worth(&self, holds: u64, rows: usize) -> bool {
        self.book.is_worth(holds, rows)
    }

    /// Whether to go through all holds costs no more than to join so many rows with them. They must be kept for that.
    pub(crate) fn is_book_better(&self, rows: usize) -> bool {
        self.book.is_better(rows)
    }

    /// The number of holds, if they were counted since the last publication.
    pub(crate) fn hold_count(&self) -> Option<u64> {
        self.book.count()
    }

    /// Keeps the number of holds until the next publication, if they were counted.
    pub(crate) fn keep_hold_count(&mut self, found: &Result<u64, ReadFault>)
        ensures { self.new ≡ self.old }
    {
        if let Ok(count) = found {
            self.book.keep_count(*count);
        }
    }
}

// The number under which the caller of a token is kept. Other tokens may have it too.
fn number_of(token: &[u8]) -> u64 {
    BuildHasherDefault::<FoldHasher>::new().hash_one(token)
}
