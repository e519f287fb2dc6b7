//! Why a file can't be taken for a slot.

use std::fs::FileType;
use std::io;
use std::os::unix::fs::FileTypeExt;
use thiserror::Error;

/// Why a file can't be taken for a slot.
#[derive(Clone, Copy, Debug, Error)]
pub enum OpenFault {
    /// The system refused it.
    #[error("{0}")]
    System(#[from] io::Error),
    #[error("in use by another process")]
    InUse,
    #[error("named twice")]
    NamedTwice,
    /// It is the file of something else, as of the script.
    #[error("the script itself")]
    Taken,
    #[error("a directory")]
    Directory,
    #[error("a character device")]
    CharacterDevice,
    #[error("a block device")]
    BlockDevice,
    #[error("a FIFO")]
    Fifo,
    #[error("a socket")]
    Socket,
}

/// Why files can't be taken.
#[derive(Clone, Copy, Debug, Error)]
pub enum FilesFault {
    /// The place, from 0, of the first path that names no file that can be taken, and why not.
    #[error("cannot open the file at place {0}: {1}")]
    CannotOpen(u32, OpenFault),
    #[error("out of memory")]
    NoMemory,
}

/// Refuses what is no file.
pub fn refuse_kind(kind: FileType) -> Result<(), OpenFault> {
    if kind.is_dir() {
        return Err(OpenFault::Directory);
    }
    if kind.is_char_device() {
        return Err(OpenFault::CharacterDevice);
    }
    if kind.is_block_device() {
        return Err(OpenFault::BlockDevice);
    }
    if kind.is_fifo() {
        return Err(OpenFault::Fifo);
    }
    if kind.is_socket() {
        return Err(OpenFault::Socket);
    }
    Ok(())
}
