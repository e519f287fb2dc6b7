// A file of the system, open and locked. It tells nothing of its bytes.
ghost use Rattle.std.specs.Prelude.{ℕ, Option, None};

use crate::device::Device;
use std::fs::{File, Files, OpenOptions, TryLockError};
use std::io;
use std::os::fd::AsRawFd;
use std::os::unix::fs::{FileExt, MetadataExt};

#[derive(Drop)]
pub struct ImageFile {
    file: File,
    pub length: u64,
    // The numbers by which the system knows it.
    device: u64,
    inode: u64,
}

// The same file under a number that isn't a standard stream's. So nothing that is printed lands in an image where a
// stream was closed.
fn above_streams(file: File) -> io::Result<File> {
    if file.as_raw_fd() > 2 {
        return Ok(file);
    }
    file.try_clone()
}

impl ImageFile {
    /// Opens an existing file.
    pub fn open<R: Files<File = File>>(rt: &R, path: &str) -> io::Result<ImageFile> {
        let opened = OpenOptions::new().read(true).write(true).open(rt, path)?;
        let file = above_streams(opened)?;
        let found = file.metadata()?;
        Ok(ImageFile {
            file,
            length: found.len(),
            device: found.dev(),
            inode: found.ino(),
        })
    }

    /// Whether both are the same file, under whatever names.
    pub fn is_same(&self, other: &ImageFile) -> bool {
        self.device == other.device && self.inode == other.inode
    }

    /// Locks the file against other openings, where its file system knows locks.
    pub fn lock(&self) -> io::Result<()> {
        match self.file.try_lock() {
            Err(TryLockError::WouldBlock) => Err(io::ErrorKind::WouldBlock.into()),
            Err(TryLockError::Error(_)) | Ok(()) => Ok(()),
        }
    }
}

// Each method is one call of the system. Of what it does nothing can be proved: that these calls keep the word of a device is trusted.
impl Device for ImageFile {
    ghost tells = { ⊥ };

    ghost size = { λ file. file.length };

    ghost start = { λ file offset. 0 };

    ghost bytes = { λ file offset. 0 };

    ghost log = { λ file number. None };

    ghost stumbles = { λ file. 0 };

    fn size(&self) -> u64 {
        self.length
    }

    fn read_some(&mut self, into: &mut [u8], offset: u64) -> io::Result<usize> {
        self.file.read_at(into, offset)
    }

    fn write_some(&mut self, _number: u64, from: &[u8], offset: u64) -> io::Result<usize> {
        self.file.write_at(from, offset)
    }

    // Lengths never change, so the data alone are synced.
    fn sync(&mut self, _number: u64) -> io::Result<()> {
        self.file.sync_data()
    }
}
