//! A value whose turn lasts until it is let go.

use lane_lock::Served;
use std::alloc::Global;
use std::marker::Model;
use std::sync::Arc;
use std::sync::atomic::{AtomicU64, Ordering};
use std::thread;

// How often a held turn looks whether it is let go.
const LOOKS: u64 = 20_000_000;

/// A count of turns, each of which tells by `inside` that it has begun, and lasts until `open` is set or it has looked long
/// enough. Contracts see it as the count.
#[derive(Drop)]
pub struct Gate {
    turns: u64,
    inside: Arc<AtomicU64, Global>,
    open: Arc<AtomicU64, Global>,
}

#[derive(Clone, Copy, Drop)]
pub enum Turn {
    Counted { let_go: bool },
    Full,
}

impl Model for Gate {
    ghost use Rattle.std.specs.Prelude.{ℕ, ◌≤◌, ◌^◌};

    ghost Value = { ℕ };

    ghost view = { λ g. g.turns };

    ghost invariant = { λ g. g.turns ≤ 2 ^ 61 };
}

impl Gate {
    ghost use Rattle.std.specs.Prelude.{◌≡◌};

    pub fn new(inside: Arc<AtomicU64, Global>, open: Arc<AtomicU64, Global>) -> Gate
        ensures { result ≡ 0 }
    {
        Gate {
            turns: 0,
            inside,
            open,
        }
    }

    pub fn turns(&self) -> u64
        ensures { result ≡ self.now }
    {
        self.turns
    }
}

/// Waits until the word is set, and answers whether it was before it had looked long enough.
pub fn wait_for(word: &AtomicU64) -> bool {
    for _ in 0..LOOKS {
        if word.load(Ordering::SeqCst) != 0 {
            return true;
        }
        thread::yield_now();
    }
    false
}

impl Served<(), Turn> for Gate {
    ghost use Rattle.test_lane_lock.specs.Gates.{gate_ways, gate_lawful};

    ghost ways = { gate_ways };

    fn size(&self) -> u64 {
        self.turns
    }

    fn serve(&mut self, _alloc: Global, _caller: u32, _request: ()) -> Turn {
        if self.turns >= 1 << 61 {
            return Turn::Full;
        }
        self.inside.store(1, Ordering::SeqCst);
        let let_go = wait_for(&self.open);
        self.turns += 1;
        Turn::Counted { let_go }
    }

    ghost lawful = { gate_lawful };
}
