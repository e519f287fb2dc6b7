// The sectors of one slot of a bank in memory.
ghost use Rattle.std.specs.Prelude.{◌≡◌, ◌+◌, ◌-◌, ◌*◌, ◌/◌, ◌<◌, ◌≤◌, ◌^◌, ◌++◌, [], ℕ, length, replicate, slice_set, slice_index_or, vec_capacity, IfOk};
ghost use Rattle.bank.specs.Tape.{AreSectors};

use std::alloc::{AllocError, Global};
use std::marker::Model;

static ZEROS: [u8; 512] = [0; 512];

/// A slot's sectors. Those behind the last one that was written are zeros, for which no memory is touched.
#[derive(Drop)]
pub struct SlotSectors {
    count: usize,
    filled: Vec<[u8; 512]>,
}

impl Model for SlotSectors {
    ghost use Rattle.std.specs.Prelude.{ℕ, List, vec_capacity};
    ghost use Rattle.bank.specs.Memory.{filled_up, HasRoom};

    ghost Value = { List (List ℕ) };

    ghost view = { λ s. filled_up s.count s.filled.items };

    ghost invariant = { λ s. HasRoom s.count s.filled.items (vec_capacity s.filled) };
}

// Appends sectors of zeros up to this number of them, for which there is room.
fn fill_up(filled: &mut Vec<[u8; 512]>, count: usize)
    requires { count ≤ vec_capacity filled.old }
    ensures items { filled.new.items ≡ filled.old.items ++ replicate (count - length filled.old.items) (replicate 512 0) }
    ensures capacity { vec_capacity filled.old ≤ vec_capacity filled.new }
{
    for _i in filled.len()..count {
        filled.push_reserved(ZEROS);
    }
}

impl SlotSectors {
    /// As many sectors of zeros.
    pub fn zeros(alloc: Global, count: usize) -> Result<Self, AllocError>
        ensures { IfOk result (λ sectors. sectors ≡ replicate count (replicate 512 0)) }
    {
        let filled = Vec::with_capacity(alloc, count)?;
        Ok(SlotSectors { count, filled })
    }

    /// The same sectors once more.
    pub fn try_clone(&self, alloc: Global) -> Result<Self, AllocError>
        ensures { IfOk result (λ sectors. sectors ≡ self.now) }
    {
        let mut filled = Vec::with_capacity(alloc, self.count)?;
        filled.extend_from_slice(&self.filled)?;
        Ok(SlotSectors {
            count: self.count,
            filled,
        })
    }

    /// How many sectors there are.
    pub fn count(&self) -> usize
        ensures exact { result ≡ length self.now }
        ensures short { length self.now < 2 ^ 63 }
    {
        self.count
    }

    /// Puts a sector's bytes in place; it takes no memory.
    pub fn put(&mut self, sector: usize, bytes: [u8; 512])
        requires { sector < length self.old }
        ensures { self.new ≡ slice_set self.old sector bytes }
    {
        fill_up(&mut self.filled, sector + 1);
        self.filled[sector] = bytes;
    }

    // One sector.
    fn sector(&self, at: usize) -> &[u8; 512]
        requires { at < length self.now }
        ensures { result.now ≡ slice_index_or self.now at [] }
    {
        if at < self.filled.len() {
            &self.filled[at]
        } else {
            &ZEROS
        }
    }

    /// The sectors from a place on, as many as there is room for.
    pub fn read(&self, at: usize, into: &mut [u8])
        requires whole { 512 * (length into.old / 512) ≡ length into.old }
        requires within { at + length into.old / 512 ≤ length self.now }
        ensures { let sectors = self.entry.now in AreSectors (λ k. slice_index_or sectors k []) at into.new }
    {
        // (no more sectors than memory has room for)
        let _ = self.count();
        for i in 0..into.len() / 512 {
            into[512 * i..512 * i + 512].copy_from_slice(self.sector(at + i));
        }
    }
}
