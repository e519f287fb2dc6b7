// A file of the system that is open for reading alone.
ghost use Rattle.std.specs.Prelude.{◌≡◌, ◌≤◌, ◌<◌, ◌+◌, ◌-◌, ◌*◌, ◌/◌, ◌^◌, ℕ, Option, None, length, IfOk};

use crate::open_fault::{OpenFault, refuse_kind};
use bank_file::Device;
use std::alloc::Global;
use std::collections::BTreeMap;
use std::fs::{File, Files, TryLockError};
use std::os::unix::fs::FileExt;
use std::{fs, io};

/// A file that is only read. What is written to it stands in memory, and is read from there. It tells nothing of its bytes.
#[derive(Drop)]
pub struct LookedAt {
    file: File,
    length: u64,
    // The sectors that were written.
    written: BTreeMap<u64, [u8; 512]>,
}

impl LookedAt {
    /// Opens an existing file for reading, unless somebody writes it.
    pub fn open<R: Files<File = File>>(
        rt: &R,
        alloc: Global,
        path: &str,
    ) -> Result<LookedAt, OpenFault> {
        let named = fs::metadata(rt, path)?;
        refuse_kind(named.file_type())?;
        let file = File::open(rt, path)?;
        let found = file.metadata()?;
        refuse_kind(found.file_type())?;
        if let Err(TryLockError::WouldBlock) = file.try_lock_shared() {
            return Err(OpenFault::InUse);
        }
        Ok(LookedAt {
            file,
            length: found.len(),
            written: BTreeMap::new(alloc),
        })
    }
}

impl Device for LookedAt {
    ghost tells = { ⊥ };

    ghost size = { λ file. file.length };

    ghost start = { λ file offset. 0 };

    ghost bytes = { λ file offset. 0 };

    ghost log = { λ file number. None };

    ghost stumbles = { λ file. 0 };

    fn size(&self) -> u64 {
        self.length
    }

    // Up to the end of a sector.
    fn read_some(&mut self, into: &mut [u8], offset: u64) -> io::Result<usize> {
        let skipped = (offset % 512) as usize;
        let count = into.len().min(512 - skipped);
        match self.written.get(&(offset / 512)) {
            Some(bytes) => {
                into[..count].copy_from_slice(&bytes[skipped..skipped + count]);
                Ok(count)
            }
            None => self.file.read_at(&mut into[..count], offset),
        }
    }

    // One sector.
    fn write_some(&mut self, _number: u64, from: &[u8], offset: u64) -> io::Result<usize> {
        if from.len() < 512 {
            return Ok(0);
        }
        let mut bytes = [0u8; 512];
        bytes.copy_from_slice(&from[..512]);
        self.written.insert(offset / 512, bytes)?;
        Ok(512)
    }

    fn sync(&mut self, _number: u64) -> io::Result<()> {
        Ok(())
    }
}
