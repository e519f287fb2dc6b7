//! A bank at which a write waits until another thread does something, for tests.
#![tactic(auto)]

ghost use Rattle.std.specs.Prelude.{◌≡◌, IfOk};

use bank::{Bank, BankFault, MemoryBank};
use std::alloc::{AllocError, Global};
use std::sync::Arc;
use std::sync::atomic::{AtomicU64, Ordering};
use std::thread;

// How often a thread looks at a word.
const LOOKS: u64 = 10_000_000;

// Waits until the word is set, and answers whether it was before the thread had looked long enough.
fn wait_for(word: &AtomicU64) -> bool {
    for _ in 0..LOOKS {
        if word.load(Ordering::SeqCst) != 0 {
            return true;
        }
        thread::yield_now();
    }
    false
}

/// The words of such a bank: a write waits there, it may go on, and somebody waited too long.
#[derive(Drop)]
pub struct Words {
    inside: Arc<AtomicU64, Global>,
    open: Arc<AtomicU64, Global>,
    late: Arc<AtomicU64, Global>,
}

impl Words {
    pub fn new(alloc: Global) -> Result<Words, AllocError> {
        Ok(Words {
            inside: Arc::new(alloc, AtomicU64::new(0))?,
            open: Arc::new(alloc, AtomicU64::new(0))?,
            late: Arc::new(alloc, AtomicU64::new(0))?,
        })
    }

    // The same words, for another thread.
    fn shared(&self) -> Result<Words, AllocError> {
        Ok(Words {
            inside: Arc::try_clone(&self.inside)?,
            open: Arc::try_clone(&self.open)?,
            late: Arc::try_clone(&self.late)?,
        })
    }

    /// This bank with these words. The first write of sectors that begin with these bytes waits.
    pub fn bank(&self, bank: MemoryBank, begin: [u8; 4]) -> Result<Doors, AllocError>
        ensures { IfOk result (λ doors. doors.bank ≡ bank) }
    {
        let words = self.shared()?;
        Ok(Doors { bank, begin, words })
    }

    // The first write waits until it is let on.
    fn enter(&self) {
        if self.inside.swap(1, Ordering::SeqCst) == 0 && !wait_for(&self.open) {
            self.late.store(1, Ordering::SeqCst);
        }
    }

    /// Lets the write go on, and waits until it is there.
    pub fn open(&self) {
        self.open.store(1, Ordering::SeqCst);
        if !wait_for(&self.inside) {
            self.late.store(1, Ordering::SeqCst);
        }
    }

    /// Whether somebody waited too long, and went on alone.
    pub fn was_late(&self) -> bool {
        self.late.load(Ordering::SeqCst) != 0
    }
}

/// A bank in memory. The first write of sectors that begin with these bytes waits until it is let on.
#[derive(Drop)]
pub struct Doors {
    bank: MemoryBank,
    begin: [u8; 4],
    words: Words,
}

impl Bank for Doors {
    ghost tells = { ⟦<MemoryBank as Bank>⟧.tells };

    ghost given = { λ doors. ⟦<MemoryBank as Bank>⟧.given doors.bank };

    ghost faults_of = { λ doors. ⟦<MemoryBank as Bank>⟧.faults_of doors.bank };

    ghost tape = { λ doors. ⟦<MemoryBank as Bank>⟧.tape doors.bank };

    ghost made = { λ doors. ⟦<MemoryBank as Bank>⟧.made doors.bank };

    fn slots(&self) -> u32 {
        self.bank.slots()
    }

    fn len(&self, slot: u32) -> u64 {
        self.bank.len(slot)
    }

    fn faults(&self, slot: u32) -> u64 {
        self.bank.faults(slot)
    }

    fn ops(&self) -> u64 {
        self.bank.ops()
    }

    fn read(&mut self, slot: u32, at: u64, into: &mut [u8]) -> Result<(), BankFault> {
        self.bank.read(slot, at, into)
    }

    fn write(&mut self, slot: u32, at: u64, from: &[u8]) -> Result<(), BankFault> {
        if from.starts_with(&self.begin) {
            self.words.enter();
        }
        self.bank.write(slot, at, from)
    }

    fn flush(&mut self, slot: u32) -> Result<(), BankFault> {
        self.bank.flush(slot)
    }
}
