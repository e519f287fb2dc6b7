//! The files of several slots, told apart, open and locked.

ghost use Rattle.std.specs.Prelude.{◌≡◌, ◌≢◌, ◌<◌, ℕ, length, All, AllPairs, Contains, IfOk, Err};
ghost use Rattle.bank_file.specs.Images.{faults_in};
ghost use Rattle.tool_files.specs.declared.open_fault.OpenFault.{OpenFault};
ghost use Rattle.tool_files.specs.declared.open_fault.FilesFault.TheVariants.{CannotOpen};

use crate::file_id::FileId;
use crate::open_fault::{FilesFault, OpenFault, refuse_kind};
use bank_file::{FileBank, ImageFile};
use std::alloc::Global;
use std::fs::{File, Files};
use std::{fs, io};

// What a path names, which is a file, none of these, and none that is taken. Nothing is opened.
fn name_apart<R: Files<File = File>>(
    rt: &R,
    path: &str,
    others: &[FileId],
    taken: &[FileId],
) -> Result<FileId, OpenFault>
    ensures another { IfOk result (λ file. ¬ Contains others.now file) }
    ensures free { IfOk result (λ file. ¬ Contains taken.now file) }
{
    let found = fs::metadata(rt, path)?;
    refuse_kind(found.file_type())?;
    let file = FileId::of(&found);
    if taken.contains(&file) {
        return Err(OpenFault::Taken);
    }
    if others.contains(&file) {
        return Err(OpenFault::NamedTwice);
    }
    Ok(file)
}

/// Which files these paths name: no file twice, by the numbers by which the system knows files, none that is taken, and nothing that is no
/// file. Nothing is opened.
pub fn tell_apart<R: Files<File = File>>(
    rt: &R,
    alloc: Global,
    paths: &[String],
    taken: &[FileId],
) -> Result<Vec<FileId>, FilesFault>
    ensures each { IfOk result (λ files. length files.items ≡ length paths.now) }
    ensures apart { IfOk result (λ files. AllPairs (λ one other. one ≢ other) files.items) }
    ensures free { IfOk result (λ files. All (λ file. ¬ Contains taken.now file) files.items) }
    ensures place { (place : ℕ) (why : OpenFault) → result ≡ Err (CannotOpen place why) → place < length paths.now }
{
    let mut files = Vec::with_capacity(alloc, paths.len()).map_err(|_| FilesFault::NoMemory)?;
    for path in paths {
        let place = files.len() as u32;
        if place == u32::MAX {
            return Err(too_many(place));
        }
        match name_apart(rt, path.as_str(), &files, taken) {
            Ok(file) => files.push_reserved(file),
            Err(why) => return Err(FilesFault::CannotOpen(place, why)),
        }
    }
    Ok(files)
}

// More files than there are numbers of slots.
fn too_many(place: u32) -> FilesFault
    ensures { (found : ℕ) (why : OpenFault) → result ≡ CannotOpen found why → found ≡ place }
{
    let many = io::Error::from(io::ErrorKind::InvalidInput);
    FilesFault::CannotOpen(place, OpenFault::System(many))
}

// Opens an existing file that is none of these, and locks it.
fn open_locked<R: Files<File = File>>(
    rt: &R,
    path: &str,
    others: &[ImageFile],
) -> Result<ImageFile, OpenFault> {
    let file = ImageFile::open(rt, path)?;
    if others.iter().any(|other| other.is_same(&file)) {
        return Err(OpenFault::NamedTwice);
    }
    match file.lock() {
        Ok(()) => Ok(file),
        Err(_) => Err(OpenFault::InUse),
    }
}

/// Takes one existing file for each slot, and locks it against other openings, once `tell_apart` has told all apart. A slot is as long as the
/// whole sectors of its file, which is measured once.
pub fn take_images<R: Files<File = File>>(
    rt: &R,
    alloc: Global,
    paths: &[String],
    taken: &[FileId],
) -> Result<FileBank<ImageFile>, FilesFault>
    ensures slots { IfOk result (λ bank. length bank.images ≡ length paths.now) }
    ensures unfailed { IfOk result (λ bank. (slot : ℕ) → faults_in bank slot ≡ 0) }
    ensures place { (place : ℕ) (why : OpenFault) → result ≡ Err (CannotOpen place why) → place < length paths.now }
{
    tell_apart(rt, alloc, paths, taken)?;
    let mut images = Vec::with_capacity(alloc, paths.len()).map_err(|_| FilesFault::NoMemory)?;
    for path in paths {
        let place = images.len() as u32;
        if place == u32::MAX {
            return Err(too_many(place));
        }
        match open_locked(rt, path.as_str(), &images) {
            Ok(image) => images.push_reserved(image),
            Err(why) => return Err(FilesFault::CannotOpen(place, why)),
        }
    }
    match FileBank::with_devices(alloc, images) {
        Ok(bank) => Ok(bank),
        Err(_) => Err(FilesFault::NoMemory),
    }
}
