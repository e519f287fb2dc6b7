//! The files of several slots, only looked at.

ghost use Rattle.std.specs.Prelude.{◌≡◌, ◌<◌, ◌^◌, ℕ, length, IfOk, Err};
ghost use Rattle.tool_files.specs.declared.open_fault.OpenFault.{OpenFault};
ghost use Rattle.tool_files.specs.declared.open_fault.FilesFault.TheVariants.{CannotOpen};

use crate::looked_at::LookedAt;
use crate::open_fault::FilesFault;
use bank_file::FileBank;
use std::alloc::Global;
use std::fs::{File, Files};

/// Takes one existing file for each slot, to be looked at. Nothing that is written to the bank reaches a file.
pub fn look_at<R: Files<File = File>>(
    rt: &R,
    alloc: Global,
    paths: &[String],
) -> Result<FileBank<LookedAt>, FilesFault>
    requires few { length paths.now < 2 ^ 32 }
    ensures slots { IfOk result (λ bank. length bank.images ≡ length paths.now) }
    ensures place { (place : ℕ) (why : OpenFault) → result ≡ Err (CannotOpen place why) → place < length paths.now }
{
    let mut devices = Vec::with_capacity(alloc, paths.len()).map_err(|_| FilesFault::NoMemory)?;
    for path in paths {
        match LookedAt::open(rt, alloc, path.as_str()) {
            Ok(device) => devices.push_reserved(device),
            Err(why) => return Err(FilesFault::CannotOpen(devices.len() as u32, why)),
        }
    }
    match FileBank::with_devices(alloc, devices) {
        Ok(bank) => Ok(bank),
        Err(_) => Err(FilesFault::NoMemory),
    }
}
