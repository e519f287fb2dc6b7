//! The superblock from its two sectors and into them.

ghost use Rattle.std.specs.Prelude.{◌≡◌, ◌+◌, ◌*◌, ◌≤◌, ◌↔◌, IsTrue, IsSome, IfSome, length, drop, take, slice_range};
ghost use Rattle.sb_codec.specs.Kept.{KeptFrom};
ghost use Rattle.sb_codec.specs.Superblock.{is_valid, sb_of, checksum, two_by_two};
ghost use Rattle.sb_codec.specs.Writable.{IsWritable};

use crate::checksum::checksum_of;
use crate::fields::{
    bytes_at, i32_at, put_bytes, put_i32, put_u8, put_u16, put_u32, put_u64, u8_at, u16_at, u32_at,
    u64_at,
};
use crate::sb::Sb;
use byteorder::{ByteOrder, LittleEndian};

const MAGIC: u32 = 0xa92b_4efc;

/// The superblock in sectors 8 and 9 of a slot; None where they are not a valid one.
pub fn decode(sectors: &[u8; 1024]) -> Option<Sb>
    ensures valid { IsSome result ↔ IsTrue (is_valid sectors.now) }
    ensures fields { IfSome result (λ sb. sb ≡ sb_of sectors.now) }
{
    if valid(sectors) {
        Some(fields_of(sectors))
    } else {
        None
    }
}

fn valid(sectors: &[u8; 1024]) -> bool
    ensures { result ≡ is_valid sectors.now }
{
    u32_at(sectors, 0) == MAGIC
        && u32_at(sectors, 4) == 1
        && u64_at(sectors, 144) == 8
        && u32_at(sectors, 220) <= 384
        && u32_at(sectors, 216) == checksum_of(sectors)
}

/// The fields of these two sectors, be they a valid superblock or not.
pub fn fields_of(sectors: &[u8; 1024]) -> Sb
    ensures { result ≡ sb_of sectors.now }
{
    Sb {
        magic: u32_at(sectors, 0),
        major: u32_at(sectors, 4),
        feature_map: u32_at(sectors, 8),
        pad0: u32_at(sectors, 12),
        set_uuid: bytes_at(sectors, 16),
        set_name: bytes_at(sectors, 32),
        ctime: u64_at(sectors, 64),
        level: u32_at(sectors, 72),
        layout: u32_at(sectors, 76),
        size: u64_at(sectors, 80),
        chunksize: u32_at(sectors, 88),
        raid_disks: u32_at(sectors, 92),
        bitmap_offset: u32_at(sectors, 96),
        new_level: u32_at(sectors, 100),
        reshape_position: u64_at(sectors, 104),
        delta_disks: i32_at(sectors, 112),
        new_layout: u32_at(sectors, 116),
        new_chunk: u32_at(sectors, 120),
        new_offset: i32_at(sectors, 124),
        data_offset: u64_at(sectors, 128),
        data_size: u64_at(sectors, 136),
        super_offset: u64_at(sectors, 144),
        recovery_offset: u64_at(sectors, 152),
        dev_number: u32_at(sectors, 160),
        cnt_corrected_read: u32_at(sectors, 164),
        device_uuid: bytes_at(sectors, 168),
        devflags: u8_at(sectors, 184),
        bblog_shift: u8_at(sectors, 185),
        bblog_size: u16_at(sectors, 186),
        bblog_offset: u32_at(sectors, 188),
        utime: u64_at(sectors, 192),
        events: u64_at(sectors, 200),
        resync_offset: u64_at(sectors, 208),
        sb_csum: u32_at(sectors, 216),
        max_dev: u32_at(sectors, 220),
        pad3: bytes_at(sectors, 224),
        dev_roles: roles(&sectors[256..]),
    }
}

fn roles(bytes: &[u8]) -> [u16; 384]
    requires { length bytes.now ≡ 768 }
    ensures { result ≡ two_by_two bytes.now }
{
    let mut roles = [0; 384];
    LittleEndian::read_u16_into(bytes, &mut roles);
    roles
}

/// Writes the superblock into the first of its two sectors, with the checksum of both put right.
pub fn encode(sb: &Sb, sectors: &mut [u8; 1024])
    requires writable { IsWritable sb.now }
    requires roles { two_by_two (drop 512 sectors.old) ≡ drop 128 sb.now.dev_roles }
    ensures valid { IsTrue (is_valid sectors.new) }
    ensures fields { sb_of sectors.new ≡ record sb.now { sb_csum = checksum sectors.new } }
    ensures second_half { drop 512 sectors.new ≡ drop 512 sectors.old }
{
    put_fields(sb, sectors);
    put_roles(&sb.dev_roles[..128], &mut sectors[256..512]);
    let sum = checksum_of(sectors);
    put_u32(sectors, 216, sum);
}

/// The two sectors of this superblock, with their checksum put right.
pub fn sectors_of(sb: &Sb) -> [u8; 1024]
    requires { IsWritable sb.now }
    ensures valid { IsTrue (is_valid result) }
    ensures fields { sb_of result ≡ record sb.now { sb_csum = checksum result } }
{
    let mut sectors = [0; 1024];
    put_roles(&sb.dev_roles[128..], &mut sectors[512..]);
    encode(sb, &mut sectors);
    sectors
}

fn put_fields(sb: &Sb, sectors: &mut [u8; 1024])
    ensures fields { sb_of sectors.new ≡ record sb.now { dev_roles = (sb_of sectors.old).dev_roles } }
    ensures after { KeptFrom 256 sectors.old sectors.new }
{
    put_u32(sectors, 0, sb.magic);
    put_u32(sectors, 4, sb.major);
    put_u32(sectors, 8, sb.feature_map);
    put_u32(sectors, 12, sb.pad0);
    put_bytes(sectors, 16, &sb.set_uuid);
    put_bytes(sectors, 32, &sb.set_name);
    put_u64(sectors, 64, sb.ctime);
    put_u32(sectors, 72, sb.level);
    put_u32(sectors, 76, sb.layout);
    put_u64(sectors, 80, sb.size);
    put_u32(sectors, 88, sb.chunksize);
    put_u32(sectors, 92, sb.raid_disks);
    put_u32(sectors, 96, sb.bitmap_offset);
    put_u32(sectors, 100, sb.new_level);
    put_u64(sectors, 104, sb.reshape_position);
    put_i32(sectors, 112, sb.delta_disks);
    put_u32(sectors, 116, sb.new_layout);
    put_u32(sectors, 120, sb.new_chunk);
    put_i32(sectors, 124, sb.new_offset);
    put_u64(sectors, 128, sb.data_offset);
    put_u64(sectors, 136, sb.data_size);
    put_u64(sectors, 144, sb.super_offset);
    put_u64(sectors, 152, sb.recovery_offset);
    put_u32(sectors, 160, sb.dev_number);
    put_u32(sectors, 164, sb.cnt_corrected_read);
    put_bytes(sectors, 168, &sb.device_uuid);
    put_u8(sectors, 184, sb.devflags);
    put_u8(sectors, 185, sb.bblog_shift);
    put_u16(sectors, 186, sb.bblog_size);
    put_u32(sectors, 188, sb.bblog_offset);
    put_u64(sectors, 192, sb.utime);
    put_u64(sectors, 200, sb.events);
    put_u64(sectors, 208, sb.resync_offset);
    put_u32(sectors, 216, sb.sb_csum);
    put_u32(sectors, 220, sb.max_dev);
    put_bytes(sectors, 224, &sb.pad3);
}

fn put_roles(roles: &[u16], bytes: &mut [u8])
    requires { length bytes.old ≡ 2 * length roles.now }
    ensures { two_by_two bytes.new ≡ roles.now }
{
    LittleEndian::write_u16_into(roles, bytes);
}
