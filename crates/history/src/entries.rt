//! A list of entries that knows each caller's next number.

use crate::events::Entry;
use raid_types::answers::NoMemory;
use std::alloc::Global;
use std::marker::Model;

// The number that a caller's next call bears.
#[derive(Clone, Copy)]
struct Counter {
    caller: u32,
    next: u64,
}

/// A list of entries, the oldest first; contracts see it with the room that it has for more.
#[derive(Drop)]
pub struct Entries {
    entries: Vec<Entry>,
    counters: Vec<Counter>,
}

impl Model for Entries {
    ghost use Rattle.std.specs.Prelude.{◌-◌, min, vec_len, vec_capacity};
    ghost use Rattle.history.specs.EntryList.{EntryList, IsCounted};

    ghost Value = { EntryList };

    ghost view = { λ l. record {
      items = l.entries.items;
      room = min (vec_capacity l.entries - vec_len l.entries) (vec_capacity l.counters - vec_len l.counters);
    } };

    ghost invariant = { λ l. IsCounted l.counters.items l.entries.items };
}

impl Entries {
    ghost use Rattle.std.specs.Prelude.{◌≡◌, ◌+◌, ◌<◌, ◌≤◌, ◌++◌, [], ◌∷◌, ℕ, length, slice_get, Some, OnOk};
    ghost use Rattle.history.specs.Flat.{next_number};

    /// No entries.
    pub fn new(alloc: Global) -> Entries
        ensures { result.items ≡ [] }
    {
        Entries {
            entries: Vec::new(alloc),
            counters: Vec::new(alloc),
        }
    }

    /// How many entries there are.
    pub fn len(&self) -> usize
        ensures { result ≡ length self.now.items }
    {
        self.entries.len()
    }

    /// The entry at a place, counted from 0.
    pub fn get(&self, at: usize) -> &Entry
        requires { at < length self.now.items }
        ensures { slice_get self.now.items at ≡ Some result.now }
    {
        &self.entries[at]
    }

    /// The number that the next call of this caller bears. Its cost grows with the number of callers alone.
    pub fn next_number(&self, caller: u32) -> u64
        ensures number { result ≡ next_number caller self.now.items }
        ensures few { result ≤ length self.now.items }
    {
        number_of(&self.counters, caller)
    }

    /// Makes room for so many entries.
    pub fn make_room(&mut self, count: usize) -> Result<(), NoMemory>
        ensures items { self.new.items ≡ self.old.items }
        ensures ok { OnOk result (count ≤ self.new.room) }
        ensures keeps { self.old.room ≤ self.new.room }
    {
        if self.entries.reserve(count).is_err() {
            return Err(NoMemory {});
        }
        if self.counters.reserve(count).is_err() {
            return Err(NoMemory {});
        }
        Ok(())
    }

    /// Appends an entry, for which there is room.
    pub fn put(&mut self, entry: Entry)
        requires room { 0 < self.old.room }
        requires number { entry.number ≤ length self.old.items }
        ensures items { self.new.items ≡ self.old.items ++ entry ∷ [] }
        ensures room { self.old.room ≤ self.new.room + 1 }
    {
        count_on(&mut self.counters, entry.caller, entry.number);
        let _ = self.entries.push(entry);
    }
}

ghost use Rattle.std.specs.Prelude.{◌≡◌, ◌≢◌, ◌+◌, ◌^◌, ◌<◌, ◌≤◌, ℕ, length, vec_len, vec_capacity};
ghost use Rattle.history.specs.EntryList.{counted, counter_place};

// The number that these counters keep for the caller.
fn number_of(counters: &[Counter], caller: u32) -> u64
    ensures { result ≡ counted counters.now caller }
{
    for counter in counters {
        if counter.caller == caller {
            return counter.next;
        }
    }
    0
}

// The place of the caller's counter; behind the last one, where it has none.
fn place_of(counters: &[Counter], caller: u32) -> usize
    ensures { result ≡ counter_place counters.now caller }
{
    for (place, counter) in counters.iter().enumerate() {
        if counter.caller == caller {
            return place;
        }
    }
    counters.len()
}

// The caller's next number is one more than this one.
fn count_on(counters: &mut Vec<Counter>, caller: u32, number: u64)
    requires room { vec_len counters.old < vec_capacity counters.old }
    requires number { number < 2 ^ 63 }
    ensures own { counted counters.new.items caller ≡ number + 1 }
    ensures others { (c : ℕ) → c ≢ caller → counted counters.new.items c ≡ counted counters.old.items c }
    ensures len { vec_len counters.new ≤ vec_len counters.old + 1 }
    ensures capacity { vec_capacity counters.old ≤ vec_capacity counters.new }
{
    let counter = Counter {
        caller,
        next: number + 1,
    };
    let place = place_of(counters, caller);
    if place < counters.len() {
        counters[place] = counter;
    } else {
        let _ = counters.push(counter);
    }
}
