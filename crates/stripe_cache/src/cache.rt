//! The cache.

ghost use Rattle.std.specs.Prelude.{◌≡◌, ◌<◌, ◌≤◌, ◌*◌, ◌==◌, [], length, if◌then◌else◌, is_some, IfSome, IfOk, MatchOption, None, option_map};
ghost use Rattle.std.specs.List.{find};
ghost use Rattle.raid_types.specs.Sectors.{sectors_of, IsWhole};

use crate::cached::{Cached, Delayed, Kept};
use crate::entry::{cached, is_meant, without_entry};
use crate::key::{Held, Key};
use lru::LruCache;
use raid_types::Side;
use std::alloc::{AllocError, Global};
use std::marker::Model;
use std::num::NonZeroUsize;

/// Up to 64 rows, of which the least recently used one leaves for a new one.
#[derive(Drop)]
pub struct Cache {
    rows: LruCache<Key, Held>,
    alloc: Global,
}

impl Model for Cache {
    ghost use Rattle.stripe_cache.specs.Apart.{IsCache};
    ghost use Rattle.stripe_cache.specs.Rows.{Rows};
    ghost use Rattle.stripe_cache.specs.View.{rows_of};

    ghost Value = { Rows };

    ghost view = { λ c. rows_of c.rows.entries c.rows.cap };

    ghost invariant = { λ c. IsCache (rows_of c.rows.entries c.rows.cap) };
}

impl Cache {
    ghost use Rattle.stripe_cache.specs.Apart.{IsCache};
    ghost use Rattle.stripe_cache.specs.Rows.{held_row, is_delayed, is_meant, without, used, kept};
    ghost use Rattle.stripe_cache.specs.View.{key_of};
    ghost use Rattle.stripe_cache.specs.Kept.{IsKept};

    pub fn new(alloc: Global, rows: u32) -> Result<Self, AllocError>
        requires some { 0 < rows }
        requires few { rows ≤ 64 }
        ensures rows { IfOk result (λ cache. cache ≡ record { held = []; room = rows }) }
        ensures cache { IfOk result (λ cache. IsCache cache) }
    {
        let room = NonZeroUsize::new(rows as usize).unwrap();
        Ok(Cache {
            rows: LruCache::new(alloc, room)?,
            alloc,
        })
    }

    /// Whether no row is held.
    pub fn is_empty(&self) -> bool
        ensures empty { result ≡ (length self.now.held == 0) }
        ensures cache { IsCache self.now }
    {
        self.rows.is_empty()
    }

    /// Whether the row is held. To ask is no use of it: each row keeps its place among the last used ones.
    pub fn holds(&self, side: Side, row: u64) -> bool
        ensures held { result ≡ is_some (held_row side row self.now) }
        ensures cache { IsCache self.now }
    {
        self.rows.contains(&Key::of(side, row))
    }

    /// Copies the row to `into`, if it is held. The row is then the last used one.
    pub fn look(&mut self, side: Side, row: u64, into: &mut [u8]) -> bool
        requires { IfSome (held_row side row self.old) (λ held. length into.old ≡ 512 * length held.body) }
        ensures found { result ≡ is_some (held_row side row self.old) }
        ensures body { MatchOption (held_row side row self.old) (into.new ≡ into.old) (λ held. sectors_of into.new ≡ held.body) }
        ensures rows { self.new ≡ used side row self.old }
        ensures cache { IsCache self.new }
    {
        match self.rows.get(&Key::of(side, row)) {
            Some(held) => {
                held.copy_to(into);
                true
            }
            None => false,
        }
    }

    /// Keeps the row, as the last used one. If it is held already, the new bytes replace the old ones, and these roles
    /// are changed besides.
    pub fn keep(&mut self, side: Side, row: u64, from: &[u8], changed: u32) -> Kept
        requires whole { IsWhole from.now }
        requires length { IfSome (held_row side row self.old) (λ held. length from.now ≡ 512 * length held.body) }
        ensures kept { IsKept (record { side = side; row = row; body = sectors_of from.now; changed = changed }) self.old self.new result }
        ensures cache { IsCache self.new }
    {
        if self.replace(side, row, from, changed) {
            Kept::Here
        } else {
            self.insert(side, row, from, changed)
        }
    }

    // Replaces the row, if it is held.
    fn replace(&mut self, side: Side, row: u64, from: &[u8], changed: u32) -> bool
        requires { IfSome (held_row side row self.old) (λ held. length from.now ≡ 512 * length held.body) }
        ensures found { result ≡ is_some (held_row side row self.old) }
        ensures rows { self.new ≡ (if result then kept (record { side = side; row = row; body = sectors_of from.now; changed = changed }) self.old else self.old) }
        ensures cache { IsCache self.new }
    {
        match self.rows.get_mut(&Key::of(side, row)) {
            Some(held) => {
                held.replace(from, changed);
                true
            }
            None => false,
        }
    }

    // Keeps a row that isn't held.
    fn insert(&mut self, side: Side, row: u64, from: &[u8], changed: u32) -> Kept
        requires whole { IsWhole from.now }
        requires absent { held_row side row self.old ≡ None }
        ensures kept { IsKept (record { side = side; row = row; body = sectors_of from.now; changed = changed }) self.old self.new result }
        ensures cache { IsCache self.new }
    {
        let held = match Held::new(self.alloc, from, changed) {
            Ok(held) => held,
            Err(_) => return Kept::NoMemory,
        };
        match self.rows.push(Key::of(side, row), held) {
            Ok(gone) => without_entry(gone),
            Err(_failed) => Kept::NoMemory,
        }
    }

    /// Takes the delayed row out that was used last.
    pub fn take_delayed(&mut self) -> Option<Cached>
        ensures row { result ≡ find is_delayed self.old.held }
        ensures rows { self.new ≡ record self.old { held = without is_delayed self.old.held } }
        ensures cache { IsCache self.new }
    {
        self.take(Delayed::Anywhere)
    }

    /// Takes the row out that was used last of the delayed ones that are meant.
    pub fn take(&mut self, which: Delayed) -> Option<Cached>
        ensures row { result ≡ find (is_meant which) self.old.held }
        ensures rows { self.new ≡ record self.old { held = without (is_meant which) self.old.held } }
        ensures cache { IsCache self.new }
    {
        if self.rows.len() == 0 {
            return None;
        }
        let key = self.first(which)?;
        let (key, held) = self.rows.pop_entry(&key)?;
        Some(cached(key, held))
    }

    // The key of the row that was used last of those that are meant.
    fn first(&self, which: Delayed) -> Option<Key>
        ensures { result ≡ option_map (λ row. key_of row.side row.row) (find (is_meant which) self.now.held) }
    {
        for (key, held) in self.rows.iter() {
            if is_meant(*key, held, which) {
                return Some(*key);
            }
        }
        None
    }
}
