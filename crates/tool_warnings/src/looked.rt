//! Files that are looked at before a run.

ghost use Rattle.std.specs.Prelude.{◌≡◌, ◌≤◌, length, map, string_bytes, IfOk};
ghost use Rattle.tool_warnings.specs.Looks.{slots_of, paths_of, numbers_below, AreShort};

use std::alloc::{AllocError, Global};
use std::fs::{File, Files, TryLockError};
use std::os::unix::fs::FileExt;

/// How many bytes of a file are looked at: the last of them belong to the magic that stands farthest behind.
pub const FRONT_BYTES: usize = 66_048;

/// A slot, the path of its file, whether somebody has locked that, and its first bytes: as many as it has and could be read.
#[derive(Drop)]
pub struct Looked {
    pub slot: u64,
    pub path: String,
    pub is_locked: bool,
    pub front: Vec<u8>,
}

// Reads the first bytes of a file, as many as there are.
fn read_front(file: &File, front: &mut [u8]) -> usize
    ensures { result ≤ length front.old }
{
    let mut count = 0;
    while count < front.len() {
        match file.read_at(&mut front[count..], count as u64) {
            Ok(0) | Err(_) => return count,
            Ok(more) => count += more,
        }
    }
    count
}

// Whether somebody has locked the file: where its file system has no locks, nobody can.
fn is_locked(file: &File) -> bool {
    matches!(file.try_lock_shared(), Err(TryLockError::WouldBlock))
}

// The file of a slot. One that can't be opened has no bytes, and nothing is said of its locks.
fn looked_at<R: Files<File = File>>(
    rt: &R,
    alloc: Global,
    slot: u64,
    path: &str,
) -> Result<Looked, AllocError>
    ensures slot { IfOk result (λ looked. looked.slot ≡ slot) }
    ensures path { IfOk result (λ looked. string_bytes looked.path ≡ path.now) }
    ensures short { IfOk result (λ looked. length looked.front.items ≤ 66048) }
{
    let mut looked = Looked {
        slot,
        path: String::from_str(alloc, path)?,
        is_locked: true,
        front: Vec::new(alloc),
    };
    if let Ok(file) = File::open(rt, path) {
        let mut front = vec![in alloc; 0u8; FRONT_BYTES]?;
        let count = read_front(&file, &mut front);
        front.truncate(count);
        looked.front = front;
        looked.is_locked = is_locked(&file);
    }
    Ok(looked)
}

/// Looks at the file of each slot, by its path. Nothing is written.
pub fn look_at<R: Files<File = File>>(
    rt: &R,
    alloc: Global,
    paths: &[String],
) -> Result<Vec<Looked>, AllocError>
    ensures slots { IfOk result (λ looked. slots_of looked.items ≡ numbers_below (length paths.now)) }
    ensures paths { IfOk result (λ looked. paths_of looked.items ≡ map string_bytes paths.now) }
    ensures short { IfOk result (λ looked. AreShort looked.items) }
{
    let mut looked = Vec::with_capacity(alloc, paths.len())?;
    for at in 0..paths.len() {
        looked.push(looked_at(rt, alloc, at as u64, paths[at].as_str())?)?;
    }
    Ok(looked)
}
