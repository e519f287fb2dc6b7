//! The limits of a shape and of a member's size, each in one place.

ghost use Rattle.std.specs.Prelude.{◌≡◌, ◌<◌, ◌↔◌, IsTrue};
ghost use Rattle.raid_types.specs.Shapes.{is_level, is_layout, is_chunk, is_disk_count, is_multiple, is_valid_shape};
ghost use Rattle.reshape_geometry.specs.Geometry.{is_size, AreInForce};

use raid_types::Shape;

pub const MOST_DISKS: u32 = 16;

pub const LEAST_CHUNK: u32 = 8;

pub const MOST_CHUNK: u32 = 1024;

pub const MOST_ROWS: u64 = 0x1_0000_0000_0000;

/// Level 5 or 6.
pub fn is_level(level: u32) -> bool
    ensures { result ≡ is_level level }
{
    level == 5 || level == 6
}

/// A layout of its level: 0 to 5, and for level 6 also 16 to 20.
pub fn is_layout(level: u32, layout: u32) -> bool
    ensures { result ≡ is_layout level layout }
{
    layout <= 5 || level == 6 && layout >= 16 && layout <= 20
}

/// A power of two within its limits.
pub fn is_chunk(chunk: u32) -> bool
    ensures { result ≡ is_chunk chunk }
{
    chunk >= LEAST_CHUNK && chunk <= MOST_CHUNK && chunk & (chunk - 1) == 0
}

/// At least one data disk beside the parity of level 5, two beside that of level 6.
pub fn is_disk_count(level: u32, disks: u32) -> bool
    ensures { result ≡ is_disk_count level disks }
{
    let least = if level == 6 { 4 } else { 2 };
    disks >= least && disks <= MOST_DISKS
}

pub fn is_valid_shape(shape: &Shape) -> bool
    ensures { result ≡ is_valid_shape shape.now }
{
    is_level(shape.level)
        && is_layout(shape.level, shape.layout)
        && is_chunk(shape.chunk)
        && is_disk_count(shape.level, shape.disks)
}

/// Whether a number of rows is a whole number of chunks.
pub fn is_multiple(size: u64, chunk: u32) -> bool
    requires { 0 < chunk }
    ensures { result ≡ is_multiple size chunk }
{
    size % u64::from(chunk) == 0
}

/// The rows of a member: 1 to 2^48, a whole number of chunks.
pub fn is_size(size: u64, chunk: u32) -> bool
    requires { 0 < chunk }
    ensures { result ≡ is_size size chunk }
{
    size >= 1 && size <= MOST_ROWS && is_multiple(size, chunk)
}

/// Whether two shapes over members of this size can be those of a reshape.
pub fn are_in_force(old: &Shape, new: &Shape, size: u64) -> bool
    ensures { IsTrue result ↔ AreInForce old.now new.now size }
{
    is_valid_shape(old)
        && is_valid_shape(new)
        && is_size(size, old.chunk)
        && is_size(size, new.chunk)
}
