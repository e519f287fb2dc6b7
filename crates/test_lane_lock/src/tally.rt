//! A tally, which several callers share.
ghost use Rattle.std.specs.Prelude.{◌≡◌, ◌≤◌, ◌^◌, List, [], length};
ghost use Rattle.test_lane_lock.specs.declared.entry.Entry.{Entry};
ghost use Rattle.test_lane_lock.specs.Tallies.{sum_of, tally_ways};

use crate::entry::{Entry, Reply, Request};
use lane_lock::Served;
use std::alloc::Global;
use std::marker::Model;

/// A sum, and the history that says so, of so many entries at most. Contracts see it as its history.
#[derive(Drop)]
pub struct Tally {
    entries: Vec<Entry>,
    total: u64,
    most: u64,
}

impl Model for Tally {
    ghost use Rattle.std.specs.Prelude.{◌≡◌, ◌≤◌, ◌^◌, List, length};
    ghost use Rattle.test_lane_lock.specs.declared.entry.Entry.{Entry};
    ghost use Rattle.test_lane_lock.specs.Tallies.{sum_of};

    ghost Value = { List Entry };

    ghost view = { λ t. t.entries.items };

    ghost invariant = { λ t. (t.total ≡ sum_of t.entries.items) × (length t.entries.items ≤ 2 ^ 61) };
}

impl Tally {
    pub fn new(alloc: Global, most: u64) -> Tally
        ensures { result ≡ [] }
    {
        Tally {
            entries: Vec::new(alloc),
            total: 0,
            most,
        }
    }

    pub fn total(&self) -> u64
        ensures { result ≡ sum_of self.now }
    {
        self.total
    }

    pub fn entries(&self) -> &[Entry]
        ensures { result.now ≡ self.now }
    {
        self.entries.as_slice()
    }
}

impl Served<Request, Reply> for Tally {
    ghost use Rattle.test_lane_lock.specs.TallyLaws.{tally_lawful};

    ghost ways = { tally_ways };

    fn size(&self) -> u64 {
        self.entries.len() as u64
    }

    fn serve(&mut self, _alloc: Global, caller: u32, request: Request) -> Reply {
        let amount = match request {
            Request::Add(amount) => amount as u64,
            Request::Read => 0,
        };
        let at = self.entries.len() as u64;
        let sum = self.total;
        if at >= self.most || at >= 1 << 61 || sum > u64::MAX - amount {
            return Reply::NoRoom;
        }
        if self.entries.push(Entry { caller, amount }).is_err() {
            return Reply::NoRoom;
        }
        self.total = sum + amount;
        Reply::Done { at, sum }
    }

    ghost lawful = { tally_lawful };
}
