// One image file for each slot.
ghost use Rattle.std.specs.Prelude.{◌≡◌, ◌<◌, ◌^◌, [], ℕ, length, slice_index, map, replicate, slice_get, IfOk, IfSome, Err, All};
ghost use Rattle.bank_file.specs.Images.{Files, given_of, faults_in, tape_in, IsFreshDevice, IsFreshImage, IsOpened};
ghost use Rattle.bank_file.specs.declared.file_bank.FileFault.TheVariants.{CannotOpen};

use crate::device::Device;
use crate::image::Image;
use crate::image_file::ImageFile;
use bank::{Bank, BankFault};
use std::alloc::{AllocError, Global};
use std::fs::{File, Files};
use std::io;
use std::marker::Model;
use thiserror::Error;

/// Why image files couldn't be taken.
#[derive(Clone, Copy, Debug, PartialEq, Eq, Error)]
pub enum FileFault {
    /// The place, from 0, of the first path that the system refused to open, lock or measure, or that names the file of
    /// a path before it.
    #[error("cannot open the file at place {0}")]
    CannotOpen(u32),
    #[error("out of memory")]
    NoMemory,
}

/// A bank whose slots are devices, such as image files. It tells what they hold and what was done to them where the devices do. Its
/// operations are numbered, and each device is handed the numbers, so that the tape is what was done to all of them in order.
#[derive(Drop)]
pub struct FileBank<D: Device> {
    images: Vec<Image<D>>,
    // How many operations there were.
    ops: u64,
}

impl<D: Device> Model for FileBank<D> {
    ghost use Rattle.bank_file.specs.Images.{Files, IsKept};

    ghost Value = { Files D };

    ghost view = { λ bank. record { images = bank.images.items; ops = bank.ops } };

    ghost invariant = { λ bank. IsKept D.tells D.start D.bytes D.log bank.images.items bank.ops };
}

// Opens and locks an existing file that is none of these.
fn open_apart<R: Files<File = File>>(
    rt: &R,
    path: &str,
    images: &[Image<ImageFile>],
) -> io::Result<Image<ImageFile>>
    ensures { IfOk result (λ image. image.faults ≡ 0) }
{
    let file = ImageFile::open(rt, path)?;
    if images.iter().any(|image| image.device.is_same(&file)) {
        return Err(io::ErrorKind::ResourceBusy.into());
    }
    file.lock()?;
    let bytes = file.length;
    Ok(Image::new(file, bytes))
}

impl<D: Device> FileBank<D> {
    /// The device of a slot.
    pub fn device(&self, slot: u32) -> &D
        requires { slot < length self.now.images }
        ensures { IfSome (slice_get self.now.images slot) (λ image. result.now ≡ image.device) }
    {
        &self.images[slot as usize].device
    }

    // A bank over these images, to which nothing was done since their devices were opened.
    fn of(images: Vec<Image<D>>) -> FileBank<D>
        requires few { length images.items < 2 ^ 32 }
        requires fresh { D.tells → All (IsFreshImage D.start D.bytes D.log) images.items }
        ensures images { result.images ≡ images.items }
        ensures ops { result.ops ≡ 0 }
    {
        FileBank { images, ops: 0 }
    }
}

impl<D: Device + Drop> FileBank<D> {
    /// Takes one device for each slot, to which nothing was done since it was opened. A slot is as long as the whole sectors of its
    /// device.
    pub fn with_devices(alloc: Global, devices: Vec<D>) -> Result<FileBank<D>, AllocError>
        requires few { length devices.items < 2 ^ 32 }
        requires fresh { D.tells → All (IsFreshDevice D.start D.bytes D.log) devices.items }
        ensures opened { IfOk result (λ bank. IsOpened D.tells D.size D.bytes devices.items (given_of D.start bank) (faults_in bank) (tape_in D.log bank)) }
    {
        let mut images = Vec::new(alloc);
        for device in devices {
            let bytes = device.size();
            images.push(Image::new(device, bytes))?;
        }
        Ok(FileBank::of(images))
    }
}

impl FileBank<ImageFile> {
    /// Takes one existing file for each slot, and locks it against other openings. A slot is as long as the whole sectors
    /// of its file, which is measured once.
    pub fn from_paths<R: Files<File = File>>(
        rt: &R,
        alloc: Global,
        paths: &[String],
    ) -> Result<FileBank<ImageFile>, FileFault>
        ensures slots { IfOk result (λ bank. length bank.images ≡ length paths.now) }
        ensures unfailed { IfOk result (λ bank. map (λ image. image.faults) bank.images ≡ replicate (length paths.now) 0) }
        ensures place { (place : ℕ) → result ≡ Err (CannotOpen place) → place < length paths.now }
    {
        let mut images = Vec::with_capacity(alloc, paths.len()).map_err(|_| FileFault::NoMemory)?;
        for path in paths {
            let place = images.len() as u32;
            if place == u32::MAX {
                return Err(FileFault::CannotOpen(place));
            }
            match open_apart(rt, path.as_str(), &images) {
                Ok(image) => images.push_reserved(image),
                Err(_) => return Err(FileFault::CannotOpen(place)),
            }
        }
        Ok(FileBank::of(images))
    }
}

impl<D: Device> Bank for FileBank<D> {
    ghost tells = { D.tells };

    ghost given = { λ bank. given_of D.start bank };

    ghost faults_of = { λ bank. faults_in bank };

    ghost tape = { λ bank. tape_in D.log bank };

    ghost made = { λ bank. bank.ops };

    fn slots(&self) -> u32 {
        self.images.len() as u32
    }

    fn len(&self, slot: u32) -> u64 {
        self.images[slot as usize].sectors
    }

    fn faults(&self, slot: u32) -> u64 {
        self.images[slot as usize].faults
    }

    fn ops(&self) -> u64 {
        self.ops
    }

    fn read(&mut self, slot: u32, at: u64, into: &mut [u8]) -> Result<(), BankFault> {
        self.images[slot as usize].read(at, into)
    }

    fn write(&mut self, slot: u32, at: u64, from: &[u8]) -> Result<(), BankFault> {
        self.images[slot as usize].write(&mut self.ops, at, from)
    }

    fn flush(&mut self, slot: u32) -> Result<(), BankFault> {
        self.images[slot as usize].flush(&mut self.ops)
    }
}
