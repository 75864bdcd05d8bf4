//! Answers that are kept by a key.
ghost use Rattle.std.specs.Prelude.{◌≡◌, ◌⊎◌, [], Contains, IfSome};

use lru::LruCache;
use std::alloc::Global;
use std::hash::Hash;
use std::marker::Model;

/// What takes memory.
pub(crate) trait Weighs {
    /// The bytes that are counted for it.
    fn bytes(&self) -> usize;
}

/// Values by their keys. Those that were used last are kept, as many as take so many bytes. A contract sees the values.
#[derive(Drop)]
pub(crate) struct Kept<K: Eq + Hash + Drop, V: Weighs + Drop> {
    // It is made with the first value.
    cache: Option<LruCache<K, V>>,
    bytes: usize,
}

impl<K: Eq + Hash + Drop, V: Weighs + Drop> Model for Kept<K, V> {
    ghost use Rattle.std.specs.Prelude.{List};
    ghost use Rattle.std.specs.Coded.{coded_list};
    ghost use Rattle.bureau_sql.specs.Kept.{values_in};

    ghost Value = { List V };

    ghost coded = { coded_list V.code };

    ghost view = { λ kept. values_in kept.cache };
}

impl<K: Eq + Hash + Drop, V: Weighs + Drop> Kept<K, V> {
    /// Nothing is kept yet.
    pub(crate) fn nothing() -> Self
        ensures { result ≡ [] }
    {
        Kept {
            cache: None,
            bytes: 0,
        }
    }

    /// Forgets all.
    pub(crate) fn clear(&mut self)
        ensures { self.new ≡ [] }
    {
        self.cache = None;
        self.bytes = 0;
    }

    /// Counts what is kept under a key as used last.
    pub(crate) fn use_now(&mut self, key: &K)
        ensures { (one : V) → Contains self.new one → Contains self.old one }
    {
        let Some(cache) = &mut self.cache else { return };
        cache.promote(key);
    }

    /// What is kept under a key.
    pub(crate) fn get(&self, key: &K) -> Option<&V>
        ensures { IfSome result (λ value. Contains self.now value.now) }
    {
        let Some(cache) = &self.cache else {
            return None;
        };
        cache.peek(key)
    }

    /// Keeps a value, if there is memory for it. Those that were used longest ago go, as far as all take more than so
    /// many bytes. One that alone takes more isn't kept.
    pub(crate) fn put(&mut self, alloc: Global, key: K, value: V, most: usize)
        ensures { (one : V) → Contains self.new one → Contains self.old one ⊎ (one ≡ value) }
    {
        let bytes = value.bytes();
        if bytes > most {
            return;
        }
        self.forget(&key);
        self.make_room(most - bytes);
        self.make(alloc);
        self.store(key, value, bytes);
    }

    // Keeps a value of so many bytes, if there is a cache.
    fn store(&mut self, key: K, value: V, bytes: usize)
        ensures { (one : V) → Contains self.new one → Contains self.old one ⊎ (one ≡ value) }
    {
        let Some(cache) = &mut self.cache else { return };
        let is_kept = cache.put(key, value).is_ok();
        self.count(bytes, is_kept);
    }

    fn count(&mut self, bytes: usize, is_kept: bool)
        ensures { self.new ≡ self.old }
    {
        if is_kept {
            self.bytes = self.bytes.saturating_add(bytes);
        }
    }

    // Makes the cache, if there is none yet.
    fn make(&mut self, alloc: Global)
        ensures { self.new ≡ self.old }
    {
        if self.cache.is_none() {
            self.cache = LruCache::unbounded(alloc).ok();
        }
    }

    /// Forgets what is kept under a key.
    pub(crate) fn forget(&mut self, key: &K)
        ensures { (one : V) → Contains self.new one → Contains self.old one }
    {
        let Some(cache) = &mut self.cache else { return };
        let Some(value) = cache.pop(key) else { return };
        self.bytes = self.bytes.saturating_sub(value.bytes());
    }

    // Drops what was used longest ago, until the others take no more than so many bytes.
    fn make_room(&mut self, most: usize)
        ensures { (one : V) → Contains self.new one → Contains self.old one }
    {
        for _ in 0..self.len() {
            if self.bytes <= most {
                return;
            }
            self.drop_oldest();
        }
    }

    fn len(&self) -> usize {
        match &self.cache {
            Some(cache) => cache.len(),
            None => 0,
        }
    }

    fn drop_oldest(&mut self)
        ensures { (one : V) → Contains self.new one → Contains self.old one }
    {
        let Some(cache) = &mut self.cache else { return };
        let Some((_, value)) = cache.pop_lru() else {
            return
        };
        self.bytes = self.bytes.saturating_sub(value.bytes());
    }
}
