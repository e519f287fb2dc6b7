// A device in memory, which tells all, moves a little at a time, and fails on demand.
ghost use Rattle.std.specs.Prelude.{◌≡◌, ◌+◌, ◌*◌, ◌/◌, ◌<◌, ◌≤◌, ◌++◌, [], ◌∷◌, ℕ, length, slice_index, IfOk, OnOk, OnErr};
ghost use Rattle.bank_file.specs.Bytes.{IsPut};
ghost use Rattle.bank_file.specs.Logs.{IsLogged};
ghost use Rattle.bank_file.specs.Images.{IsFresh};
ghost use Rattle.bank_file.specs.Entries.{noted};

use crate::device::{Device, Done};
use std::alloc::{AllocError, Global};
use std::io;

/// What was done under a number.
#[derive(Clone, Copy)]
pub struct Entry {
    pub number: u64,
    pub done: Done,
}

/// How a device in memory behaves: how many sectors, or bytes of a read, a call moves at most, and the calls, numbered from 0, that fail
/// or are interrupted.
#[derive(Drop)]
pub struct Manner {
    pub sectors: usize,
    pub bytes: usize,
    pub failing: Vec<u64>,
    pub interrupted: Vec<u64>,
}

#[derive(Drop)]
pub struct MemoryDevice {
    start: Vec<u8>,
    held: Vec<u8>,
    log: Vec<Entry>,
    manner: Manner,
    calls: u64,
    stumbles: u64,
}

// Puts one sector's bytes in place.
fn put_bytes(bytes: &mut [u8], at: usize, from: &[u8])
    requires size { length from.now ≡ 512 }
    requires within { at + 512 ≤ length bytes.old }
    ensures { IsPut (slice_index bytes.old) (slice_index bytes.new) at 512 from.now }
{
    bytes[at..at + 512].copy_from_slice(from);
}

// How the call of this number is to fail, where it is.
fn failure(manner: &Manner, call: u64) -> Option<io::ErrorKind> {
    if manner.interrupted.contains(&call) {
        return Some(io::ErrorKind::Interrupted);
    }
    if manner.failing.contains(&call) {
        return Some(io::ErrorKind::Other);
    }
    None
}

impl MemoryDevice {
    /// A device that holds these bytes.
    pub fn new(alloc: Global, bytes: Vec<u8>, manner: Manner) -> Result<MemoryDevice, AllocError>
        ensures bytes { IfOk result (λ device. device.held.items ≡ bytes.items) }
        ensures fresh { IfOk result (λ device. IsFresh (slice_index device.start.items) (slice_index device.held.items) (noted device.log.items)) }
    {
        let start = Vec::from_slice(alloc, &bytes)?;
        Ok(MemoryDevice {
            start,
            held: bytes,
            log: Vec::new(alloc),
            manner,
            calls: 0,
            stumbles: 0,
        })
    }

    /// What it holds.
    pub fn bytes(&self) -> &[u8]
        ensures { result.now ≡ self.now.held.items }
    {
        &self.held
    }

    // Notes what is done.
    fn note(&mut self, entry: Entry) -> Result<(), AllocError>
        ensures noted { OnOk result (self.new.log.items ≡ self.old.log.items ++ entry ∷ []) }
        ensures kept { OnErr result (self.new.log.items ≡ self.old.log.items) }
        ensures held { self.new.held ≡ self.old.held }
        ensures start { self.new.start ≡ self.old.start }
        ensures stumbles { self.new.stumbles ≡ self.old.stumbles }
    {
        match self.log.push(entry) {
            Ok(()) => Ok(()),
            Err(_) => Err(AllocError),
        }
    }

    // Puts one sector.
    fn put(&mut self, number: u64, from: &[u8], offset: u64) -> Result<(), AllocError>
        requires size { length from.now ≡ 512 }
        requires place { 512 * (offset / 512) ≡ offset }
        requires within { offset + 512 ≤ length self.old.held.items }
        ensures put { OnOk result (IsPut (slice_index self.old.held.items) (slice_index self.new.held.items) offset 512 from.now) }
        ensures logged { OnOk result (IsLogged (noted self.old.log.items) (noted self.new.log.items) number (offset / 512) 1 from.now) }
        ensures same { OnErr result (self.new.held.items ≡ self.old.held.items) }
        ensures kept { OnErr result (self.new.log.items ≡ self.old.log.items) }
        ensures long { length self.new.held.items ≡ length self.old.held.items }
        ensures start { self.new.start ≡ self.old.start }
        ensures stumbles { self.new.stumbles ≡ self.old.stumbles }
    {
        let mut bytes = [0u8; 512];
        bytes.copy_from_slice(from);
        let entry = Entry {
            number,
            done: Done::Put(offset / 512, bytes),
        };
        self.note(entry)?;
        put_bytes(&mut self.held, offset as usize, from);
        Ok(())
    }
}

impl Device for MemoryDevice {
    ghost tells = { Unit {0} };

    ghost size = { λ device. length device.held.items };

    ghost start = { λ device. slice_index device.start.items };

    ghost bytes = { λ device. slice_index device.held.items };

    ghost log = { λ device. noted device.log.items };

    ghost stumbles = { λ device. device.stumbles };

    fn size(&self) -> u64 {
        self.held.len() as u64
    }

    fn read_some(&mut self, into: &mut [u8], offset: u64) -> io::Result<usize> {
        let call = self.calls;
        self.calls = call.saturating_add(1);
        if let Some(kind) = failure(&self.manner, call) {
            self.stumbles = self.stumbles.saturating_add(1);
            return Err(kind.into());
        }
        let left = (self.held.len() as u64).saturating_sub(offset);
        let count = into.len().min(left as usize).min(self.manner.bytes);
        if count == 0 {
            self.stumbles = self.stumbles.saturating_add(1);
            return Ok(0);
        }
        let at = offset as usize;
        into[..count].copy_from_slice(&self.held[at..at + count]);
        Ok(count)
    }

    fn write_some(&mut self, number: u64, from: &[u8], offset: u64) -> io::Result<usize> {
        let call = self.calls;
        self.calls = call.saturating_add(1);
        if let Some(kind) = failure(&self.manner, call) {
            self.stumbles = self.stumbles.saturating_add(1);
            return Err(kind.into());
        }
        let left = (self.held.len() as u64).saturating_sub(offset);
        let most = (from.len() / 512)
            .min(left as usize / 512)
            .min(self.manner.sectors);
        let mut done = 0;
        for i in 0..most {
            let sector = &from[512 * i..512 * i + 512];
            match self.put(number + i as u64, sector, offset + 512 * i as u64) {
                Ok(()) => done = i + 1,
                Err(_) => break,
            }
        }
        if done == 0 {
            self.stumbles = self.stumbles.saturating_add(1);
        }
        Ok(512 * done)
    }

    fn sync(&mut self, number: u64) -> io::Result<()> {
        let call = self.calls;
        self.calls = call.saturating_add(1);
        if let Some(kind) = failure(&self.manner, call) {
            self.stumbles = self.stumbles.saturating_add(1);
            return Err(kind.into());
        }
        let entry = Entry {
            number,
            done: Done::Synced,
        };
        match self.note(entry) {
            Ok(()) => Ok(()),
            Err(_) => {
                self.stumbles = self.stumbles.saturating_add(1);
                Err(io::ErrorKind::OutOfMemory.into())
            }
        }
    }
}
