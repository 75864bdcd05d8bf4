//! A store in lists whose device fails at one of its calls, and for good.
ghost use Rattle.std.specs.Prelude.{◌≡◌, ◌<◌, ◌≤◌, ◌⊎◌, false, true};
ghost use Rattle.catalogue.specs.View.{most_failures};

use bureau_store::{Caller, Effect, ListStore, Store, StoreFault};
use catalogue::{Published, SourceFault, Sysmod};
use failure_count::count_failure;
use holddata::{Hold, Kind};
use mcs_reader::Id;
use zone_lists::{Pattern, ZoneRow};

/// A store in lists that answers a number of calls, and then fails for good.
#[derive(Drop)]
pub struct FailingStore {
    /// The lists. After a failure they stand for a store that is opened anew.
    pub lists: ListStore,
    /// The number of calls that are still answered.
    pub left: u64,
    /// The number of failures.
    pub failures: u64,
}

impl FailingStore {
    /// The lists, of which so many calls are answered.
    pub fn new(lists: ListStore, left: u64) -> FailingStore
        ensures lists { result.lists ≡ lists }
        ensures left { result.left ≡ left }
        ensures open { result.failures ≡ 0 }
    {
        FailingStore {
            lists,
            left,
            failures: 0,
        }
    }

    // Counts a call. Returns whether it fails.
    fn fails(&mut self) -> bool
        ensures lists { self.new.lists ≡ self.old.lists }
        ensures rises { self.old.failures ≤ self.new.failures }
        ensures fails { result ≡ true → (0 < self.new.failures)
            × ((self.old.failures < self.new.failures) ⊎ (self.new.failures ≡ most_failures)) }
        ensures stands { result ≡ false → (self.old.failures ≡ 0) × (self.new.failures ≡ 0) }
    {
        if self.left == 0 || self.failures > 0 {
            count_failure(&mut self.failures);
            return true;
        }
        self.left -= 1;
        false
    }
}

impl Published for FailingStore {
    ghost use Rattle.std.specs.Prelude.{◌≡◌, ◌≤◌};
    ghost use Rattle.std.proofs.Common.{◌∙◌, ap, arith, refl, subst, sym};
    ghost use Rattle.catalogue.specs.Content.{IsInOrder};
    ghost use Rattle.bureau_store.specs.Lists.{IsOurs, tables_of};

    ghost content_view = { record {
      stands = λ store this. store.failures ≡ 0 → (tables_of store.lists).content ≡ this;
      is_clean = λ store. Unit {0};
      is_ours = λ store. IsOurs store.lists;
      failures = λ store. store.failures;
      may_leave = λ store this. (tables_of store.lists).content ≡ this;
      keeps = λ old new. (new.lists ≡ old.lists) × (old.failures ≤ new.failures);
    } };

    fn ids(&mut self) -> Result<Vec<Id>, SourceFault> {
        if self.fails() {
            return Err(SourceFault::Device);
        }
        self.lists.ids()
    }

    fn sysmod(&mut self, id: &Id) -> Result<Option<Sysmod>, SourceFault> {
        if self.fails() {
            return Err(SourceFault::Device);
        }
        self.lists.sysmod(id)
    }

    fn superseders(&mut self, id: &Id) -> Result<Vec<Id>, SourceFault> {
        if self.fails() {
            return Err(SourceFault::Device);
        }
        self.lists.superseders(id)
    }

    fn holds_on(&mut self, id: &Id) -> Result<Vec<Hold>, SourceFault> {
        if self.fails() {
            return Err(SourceFault::Device);
        }
        self.lists.holds_on(id)
    }

    ghost lawful = { record {
      keeps = λ old new kept. record {
        goes = record {
          clean = λ clean. clean;
          ours = λ ours clean. subst IsOurs (sym kept.0) ours;
          failures_rise = kept.1;
        };
        stays = λ ours clean this stands standing.
            ap (λ lists. (tables_of lists).content) kept.0 ∙ stands (omega (arith, kept.1, standing));
        leaves = λ ours clean this left. ap (λ lists. (tables_of lists).content) (sym kept.0) ∙ left;
      };
      itself = λ store. (refl, omega arith);
      on = λ first second third sooner later. (later.0 ∙ sooner.0, omega (arith, sooner.1, later.1));
      one = λ store is_open this other first second. sym (first is_open) ∙ second is_open;
    } };

    ghost in_order = { λ store this ours standing stands. subst IsInOrder (stands standing) ours.in_order.content };
}

impl Store for FailingStore {
    ghost use Rattle.std.specs.Prelude.{◌≡◌, ◌≤◌};
    ghost use Rattle.std.proofs.Common.{◌∙◌, ap, arith, refl, subst, sym};
    ghost use Rattle.bureau_store.specs.Lists.{IsOurs, tables_of};
    ghost use Rattle.bureau_store.specs.Store.{IsOfRead};
    ghost use Rattle.bureau_store.specs.Tables.{AreInOrder};
    ghost use Rattle.failing_store.specs.Failing.{failing_view};

    ghost tables_view = { failing_view };

    ghost outgrown = { λ update old new. ⊥ };

    ghost refuses = { λ update old new fault. IsOfRead fault };

    fn device_failed(&self) -> bool {
        self.failures > 0
    }

    fn caller_of(&mut self, token: &[u8]) -> Result<Option<Caller>, StoreFault> {
        if self.fails() {
            return Err(StoreFault::Device);
        }
        Store::caller_of(&mut self.lists, token)
    }

    fn last(&mut self, caller: &Caller) -> Result<(u64, Vec<u8>), StoreFault> {
        if self.fails() {
            return Err(StoreFault::Device);
        }
        self.lists.last(caller)
    }

    fn counts(&mut self) -> Result<(u64, u64), StoreFault> {
        if self.fails() {
            return Err(StoreFault::Device);
        }
        self.lists.counts()
    }

    fn zones(&mut self, client: &Id) -> Result<Vec<(Id, u64)>, StoreFault> {
        if self.fails() {
            return Err(StoreFault::Device);
        }
        self.lists.zones(client)
    }

    fn zone_count(&mut self, client: &Id) -> Result<u64, StoreFault> {
        if self.fails() {
            return Err(StoreFault::Device);
        }
        self.lists.zone_count(client)
    }

    fn has_zone(&mut self, client: &Id, zone: &Id) -> Result<bool, StoreFault> {
        if self.fails() {
            return Err(StoreFault::Device);
        }
        self.lists.has_zone(client, zone)
    }

    fn zone(&mut self, client: &Id, zone: &Id) -> Result<Option<Vec<ZoneRow>>, StoreFault> {
        if self.fails() {
            return Err(StoreFault::Device);
        }
        self.lists.zone(client, zone)
    }

    fn received(&mut self, client: &Id) -> Result<Vec<Id>, StoreFault> {
        if self.fails() {
            return Err(StoreFault::Device);
        }
        self.lists.received(client)
    }

    fn patterns(&mut self, client: &Id, zone: &Id) -> Result<Vec<Pattern>, StoreFault> {
        if self.fails() {
            return Err(StoreFault::Device);
        }
        self.lists.patterns(client, zone)
    }

    fn held_in(&mut self, client: &Id, zone: &Id, kind: Kind) -> Result<Vec<Hold>, StoreFault> {
        if self.fails() {
            return Err(StoreFault::Device);
        }
        self.lists.held_in(client, zone, kind)
    }

    fn make(&mut self, number: u64, reply: &[u8], effect: &Effect<'_>) -> Result<(), StoreFault> {
        if self.fails() {
            return Err(StoreFault::Device);
        }
        self.lists.make(number, reply, effect)
    }

    ghost tables_lawful = { record {
      keeps = λ old new kept. record {
        goes = record {
          clean = λ clean. clean;
          ours = λ ours clean. subst IsOurs (sym kept.0) ours;
          failures_rise = kept.1;
        };
        stays = λ ours clean this stands standing. ap tables_of kept.0 ∙ stands (omega (arith, kept.1, standing));
        leaves = λ ours clean this left. ap tables_of (sym kept.0) ∙ left;
      };
      itself = λ store. (refl, omega arith);
      on = λ first second third sooner later. (later.0 ∙ sooner.0, omega (arith, sooner.1, later.1));
      one = λ store is_open this other first second. sym (first is_open) ∙ second is_open;
    } };

    ghost shows_content = { record {
      keeps = λ old new kept. kept;
      clean = λ store clean. clean;
      ours = λ store ours. ours;
      failures = λ store. refl;
      stands = λ store this stands standing. ap (λ tables. tables.content) (stands standing);
    } };

    ghost holds_tables = { λ store ours standing. (tables_of store.lists, λ h. refl) };

    ghost tables_in_order = { λ store this ours standing stands. subst AreInOrder (stands standing) ours.in_order };
}
