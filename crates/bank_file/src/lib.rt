//! A bank over devices, one for each slot, such as image files. It tells what they tell.
#![tactic(auto)]

mod device;
mod file_bank;
mod image;
mod image_file;
mod memory_device;

pub use device::{Device, Done};
pub use file_bank::{FileBank, FileFault};
pub use image::Image;
pub use image_file::ImageFile;
pub use memory_device::{Entry, Manner, MemoryDevice};
