//! Whether an array can be made over a bank, without a device call.

ghost use Rattle.std.specs.Prelude.{◌≡◌, ◌+◌, ◌-◌, ◌<◌, ◌≤◌, ◌^◌, IfNone, IfSome, IsTrue};
ghost use Rattle.array_found_laws.specs.raid_types_Shapes.{is_valid_shape};
ghost use Rattle.array_create_assemble.specs.Creating.{IsLastSlot, member_slots, is_row_count, is_offset, bad_field, rows_end, short_member, create_refusal, HasRoom};

use crate::spec::CreateSpec;
use array_found_laws::{Refusal, ShapeField};
use bank::Bank;
use sb_election::{MOST_ROWS, is_chunk, is_disk_count, is_layout, is_level, is_multiple};

pub const LEAST_OFFSET: u64 = 16;

pub const MOST_OFFSET: u64 = 1_048_576;

// The rows of a member: 1 to 2^48.
fn is_row_count(size: u64) -> bool
    ensures { result ≡ is_row_count size }
{
    size >= 1 && size <= MOST_ROWS
}

fn is_offset(offset: u64) -> bool
    ensures { result ≡ is_offset offset }
{
    offset >= LEAST_OFFSET && offset <= MOST_OFFSET
}

// The first value that is out of its limits.
fn bad_field(spec: &CreateSpec) -> Option<ShapeField>
    ensures { result ≡ bad_field spec.now }
{
    let shape = spec.shape;
    if !is_level(shape.level) {
        Some(ShapeField::Level)
    } else if !is_layout(shape.level, shape.layout) {
        Some(ShapeField::Layout)
    } else if !is_chunk(shape.chunk) {
        Some(ShapeField::Chunk)
    } else if !is_disk_count(shape.level, shape.disks) {
        Some(ShapeField::Disks)
    } else if !is_row_count(spec.size) {
        Some(ShapeField::Size)
    } else if !is_offset(spec.offset) {
        Some(ShapeField::Offset)
    } else {
        None
    }
}

// How many slots can be members: all but the backup, which is the last.
pub fn member_slots(slots: u32, backup: Option<u32>) -> u32
    requires { IsLastSlot slots backup }
    ensures { result ≡ member_slots slots backup }
{
    match backup {
        Some(_) => slots - 1,
        None => slots,
    }
}

// The lowest member that is too short for its rows.
fn short_member<B: Bank>(bank: &B, spec: &CreateSpec) -> Option<u32>
    requires known { spec.now.shape.disks ≤ (B.given bank.now).slots }
    requires short { rows_end spec.now < 2 ^ 63 }
    ensures exact { result ≡ short_member (B.given bank.now) spec.now }
    ensures member { IfSome result (λ slot. slot < spec.now.shape.disks) }
{
    let end = spec.offset + spec.size;
    for slot in 0..spec.shape.disks {
        if bank.len(slot) < end {
            return Some(slot);
        }
    }
    None
}

/// The first refusal that needs no device call: `BadShape` with the first of level, layout, chunk, disks, size and
/// offset that is out of its limits; `SizeNotMultiple` where the rows of a member aren't whole chunks; `NoSuchSlot`
/// with the number of member slots, where there are more disks; `SlotTooSmall` with the sectors of the lowest member
/// that is too short, and those that it wants.
pub fn refusal_of_create<B: Bank>(
    bank: &B,
    backup: Option<u32>,
    spec: &CreateSpec,
) -> Option<Refusal>
    requires backup { IsLastSlot (B.given bank.now).slots backup }
    ensures exact { result ≡ create_refusal (B.given bank.now) backup spec.now }
    ensures room { IfNone result (HasRoom (B.given bank.now) backup spec.now) }
{
    match bad_field(spec) {
        Some(field) => return Some(Refusal::BadShape(field)),
        None => {}
    }
    if !is_multiple(spec.size, spec.shape.chunk) {
        return Some(Refusal::SizeNotMultiple(spec.size, u64::from(spec.shape.chunk)));
    }
    let members = member_slots(bank.slots(), backup);
    if members < spec.shape.disks {
        return Some(Refusal::NoSuchSlot(members));
    }
    match short_member(bank, spec) {
        Some(slot) => Some(Refusal::SlotTooSmall(bank.len(slot), spec.offset + spec.size)),
        None => None,
    }
}
