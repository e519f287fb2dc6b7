//! By what the system tells files apart.

use std::fs;
use std::os::unix::fs::MetadataExt;

/// By what the system knows a file: two that have the same are one, under whatever names.
#[derive(Clone, Copy, Debug, PartialEq, Eq)]
pub struct FileId {
    pub device: u64,
    pub inode: u64,
}

impl FileId {
    /// That of a file that the system has told about.
    pub fn of(found: &fs::Metadata) -> FileId {
        FileId {
            device: found.dev(),
            inode: found.ino(),
        }
    }
}
