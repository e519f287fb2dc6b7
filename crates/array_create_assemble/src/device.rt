//! The superblock of a member of an array that is made.

ghost use Rattle.std.specs.Prelude.{◌≡◌, ◌≤◌, ◌++◌, length};
ghost use Rattle.sb_add_spare.specs.history_Created.{first_entries};
ghost use Rattle.array_create_assemble.specs.Making.{created_sb};

use crate::spec::CreateSpec;
use sb_add_spare::device_uuid;
use sb_election::Sb;

// The role entries: device n has role n, no other one below 128 has a role, and the last 256 entries are given.
fn role_entries(disks: u32, second: &[u16]) -> [u16; 384]
    requires disks { disks ≤ 16 }
    requires second { length second.now ≡ 256 }
    ensures { result ≡ first_entries disks ++ second.now }
{
    let mut entries = [0xfffe; 384];
    for number in 0..disks {
        entries[number as usize] = number as u16;
    }
    entries[128..].copy_from_slice(second);
    entries
}

/// The superblock of the member with this number, whose slot has so many sectors and these role entries, from 128 on, in
/// the superblock's second sector. The checksum is 0; it is put right when the superblock is written.
pub fn created_sb(spec: &CreateSpec, number: u32, sectors: u64, second: &[u16]) -> Sb
    requires disks { spec.now.shape.disks ≤ 16 }
    requires long { spec.now.offset ≤ sectors }
    requires second { length second.now ≡ 256 }
    ensures { result ≡ created_sb spec.now number sectors second.now }
{
    let uuid = spec.uuid;
    let shape = spec.shape;
    Sb {
        magic: 0xa92b_4efc,
        major: 1,
        feature_map: 0,
        pad0: 0,
        set_uuid: uuid,
        set_name: [0; 32],
        ctime: 0,
        level: shape.level,
        layout: shape.layout,
        size: spec.size,
        chunksize: shape.chunk,
        raid_disks: shape.disks,
        bitmap_offset: 0,
        new_level: 0,
        reshape_position: 0,
        delta_disks: 0,
        new_layout: 0,
        new_chunk: 0,
        new_offset: 0,
        data_offset: spec.offset,
        data_size: sectors - spec.offset,
        super_offset: 8,
        recovery_offset: 0,
        dev_number: number,
        cnt_corrected_read: 0,
        device_uuid: device_uuid(&uuid, number),
        devflags: 0,
        bblog_shift: 0,
        bblog_size: 0,
        bblog_offset: 0,
        utime: 0,
        events: 1,
        resync_offset: u64::MAX,
        sb_csum: 0,
        max_dev: 128,
        pad3: [0; 32],
        dev_roles: role_entries(shape.disks, second),
    }
}
