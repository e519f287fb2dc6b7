//! The superblock of a device that is new to an array.

ghost use Rattle.std.specs.Prelude.{◌≡◌, ◌≤◌, ◌++◌, ◌<◌, ◌-◌, take, drop, length, IfSome};
ghost use Rattle.sb_safe_updates.specs.array_members_Numbers.{bearers, bearing, device_uuid, spare_sb, free_number};

use sb_safe_updates::{Features, Sb, Work, entry_of, with, without};
use uuid::Uuid;

// The bits of the feature map that an array's superblocks share.
const SHARED_BITS: u32 = Features::RESHAPE_ACTIVE.0 | Features::RESHAPE_BACKWARDS.0;

/// The uuid of a device: version 5, of the array's uuid and the decimal digits of the device's number.
pub fn device_uuid(array: &[u8; 16], number: u32) -> [u8; 16]
    ensures { result ≡ device_uuid array.now number }
{
    let mut digits = itoa::Buffer::new();
    *Uuid::new_v5(&Uuid::from_bytes(*array), digits.format(number).as_bytes()).as_bytes()
}

// The slots that may bear a device number, of these, once this slot bears a new one: that number or another. It may bear the
// former ones too, or bears its new one only.
fn bearers(slots: u32, slot: u32, is: bool, only: bool) -> u32
    requires { slot < 32 }
    ensures { result ≡ bearers only slot is slots }
{
    if is {
        return with(slots, slot);
    }
    if only {
        return without(slots, with(0, slot));
    }
    slots
}

/// From now on the slot's superblock may bear this device number too, or bears it only.
pub fn bear(work: &mut Work, slot: u32, number: u32, only: bool)
    requires slot { slot < 32 }
    ensures { work.new ≡ bearing only slot number work.old }
{
    let mut carried = [0; 128];
    for other in 0..128u32 {
        let slots = work.carried[other as usize];
        carried[other as usize] = bearers(slots, slot, other == number, only);
    }
    work.carried = carried;
}

/// The smallest device number that no superblock of the array may bear and that has no role.
pub fn free_number(newest: &Sb, work: &Work) -> Option<u32>
    ensures number { result ≡ free_number newest.now work.now }
    ensures below { IfSome result (λ number. number < 128) }
{
    for number in 0..128u32 {
        if work.carried[number as usize] == 0 && entry_of(newest, number) >= 0xfffe {
            return Some(number);
        }
    }
    None
}

// The newest's role entries below 128, and these behind them.
fn spare_entries(newest: &Sb, second: &[u16]) -> [u16; 384]
    requires second { length second.now ≡ 256 }
    ensures all { result ≡ take 128 newest.now.dev_roles ++ second.now }
    ensures last { drop 128 result ≡ second.now }
{
    let mut entries = newest.dev_roles;
    entries[128..].copy_from_slice(second);
    entries
}

/// The superblock of a new spare of the array with this uuid, whose slot has so many sectors and these role entries, from
/// 128 on, in the superblock's second sector. The checksum is 0; it is put right when the superblock is written.
pub fn spare_sb(
    newest: &Sb,
    uuid: &[u8; 16],
    number: u32,
    offset: u64,
    sectors: u64,
    second: &[u16],
) -> Sb
    requires long { offset ≤ sectors }
    requires second { length second.now ≡ 256 }
    ensures all { result ≡ spare_sb newest.now uuid.now number offset sectors second.now }
    ensures second { drop 128 result.dev_roles ≡ second.now }
{
    Sb {
        magic: 0xa92b_4efc,
        major: 1,
        feature_map: newest.feature_map & SHARED_BITS,
        set_uuid: *uuid,
        data_offset: offset,
        data_size: sectors - offset,
        super_offset: 8,
        recovery_offset: 0,
        dev_number: number,
        cnt_corrected_read: 0,
        device_uuid: device_uuid(uuid, number),
        devflags: 0,
        bblog_shift: 0,
        bblog_size: 0,
        bblog_offset: 0,
        utime: 0,
        sb_csum: 0,
        max_dev: 128,
        pad3: [0; 32],
        dev_roles: spare_entries(newest, second),
        ..*newest
    }
}
