//! Little-endian fields at byte offsets of the superblock's two sectors.

ghost use Rattle.std.specs.Prelude.{◌≡◌, ◌+◌, ◌≤◌, slice_range};
ghost use Rattle.raid_types.specs.Bytes.{field};
ghost use Rattle.sb_codec.specs.Kept.{KeptBefore, KeptFrom};
ghost use Rattle.sb_codec.specs.Superblock.{signed};

use byteorder::{ByteOrder, LittleEndian};

pub fn u8_at(sectors: &[u8; 1024], offset: usize) -> u8
    requires { offset + 1 ≤ 1024 }
    ensures { result ≡ field sectors.now offset 1 }
{
    sectors[offset]
}

pub fn u16_at(sectors: &[u8; 1024], offset: usize) -> u16
    requires { offset + 2 ≤ 1024 }
    ensures { result ≡ field sectors.now offset 2 }
{
    LittleEndian::read_u16(&sectors[offset..])
}

pub fn u32_at(sectors: &[u8; 1024], offset: usize) -> u32
    requires { offset + 4 ≤ 1024 }
    ensures { result ≡ field sectors.now offset 4 }
{
    LittleEndian::read_u32(&sectors[offset..])
}

pub fn i32_at(sectors: &[u8; 1024], offset: usize) -> i32
    requires { offset + 4 ≤ 1024 }
    ensures { result ≡ signed (field sectors.now offset 4) }
{
    LittleEndian::read_i32(&sectors[offset..])
}

pub fn u64_at(sectors: &[u8; 1024], offset: usize) -> u64
    requires { offset + 8 ≤ 1024 }
    ensures { result ≡ field sectors.now offset 8 }
{
    LittleEndian::read_u64(&sectors[offset..])
}

pub fn bytes_at<const N: usize>(sectors: &[u8; 1024], offset: usize) -> [u8; N]
    requires { offset + N ≤ 1024 }
    ensures { result ≡ slice_range sectors.now offset (offset + N) }
{
    let mut bytes = [0; N];
    bytes.copy_from_slice(&sectors[offset..offset + N]);
    bytes
}

pub fn put_u8(sectors: &mut [u8; 1024], offset: usize, value: u8)
    requires { offset + 1 ≤ 1024 }
    ensures value { field sectors.new offset 1 ≡ value }
    ensures before { KeptBefore offset sectors.old sectors.new }
    ensures after { KeptFrom (offset + 1) sectors.old sectors.new }
{
    sectors[offset] = value;
}

pub fn put_u16(sectors: &mut [u8; 1024], offset: usize, value: u16)
    requires { offset + 2 ≤ 1024 }
    ensures value { field sectors.new offset 2 ≡ value }
    ensures before { KeptBefore offset sectors.old sectors.new }
    ensures after { KeptFrom (offset + 2) sectors.old sectors.new }
{
    LittleEndian::write_u16(&mut sectors[offset..offset + 2], value);
}

pub fn put_u32(sectors: &mut [u8; 1024], offset: usize, value: u32)
    requires { offset + 4 ≤ 1024 }
    ensures value { field sectors.new offset 4 ≡ value }
    ensures before { KeptBefore offset sectors.old sectors.new }
    ensures after { KeptFrom (offset + 4) sectors.old sectors.new }
{
    LittleEndian::write_u32(&mut sectors[offset..offset + 4], value);
}

pub fn put_i32(sectors: &mut [u8; 1024], offset: usize, value: i32)
    requires { offset + 4 ≤ 1024 }
    ensures value { signed (field sectors.new offset 4) ≡ value }
    ensures before { KeptBefore offset sectors.old sectors.new }
    ensures after { KeptFrom (offset + 4) sectors.old sectors.new }
{
    LittleEndian::write_i32(&mut sectors[offset..offset + 4], value);
}

pub fn put_u64(sectors: &mut [u8; 1024], offset: usize, value: u64)
    requires { offset + 8 ≤ 1024 }
    ensures value { field sectors.new offset 8 ≡ value }
    ensures before { KeptBefore offset sectors.old sectors.new }
    ensures after { KeptFrom (offset + 8) sectors.old sectors.new }
{
    LittleEndian::write_u64(&mut sectors[offset..offset + 8], value);
}

pub fn put_bytes<const N: usize>(sectors: &mut [u8; 1024], offset: usize, bytes: &[u8; N])
    requires { offset + N ≤ 1024 }
    ensures value { slice_range sectors.new offset (offset + N) ≡ bytes.now }
    ensures before { KeptBefore offset sectors.old sectors.new }
    ensures after { KeptFrom (offset + N) sectors.old sectors.new }
{
    sectors[offset..offset + N].copy_from_slice(bytes);
}
