//! Slots that may be made spares.

ghost use Rattle.std.specs.Prelude.{◌≡◌, ◌+◌, ◌<◌, ◌≤◌, ℕ, true, false, drop, length, MatchOption};
ghost use Rattle.stripe_io.specs.raid_types_the_Refusal.{Refusal};
ghost use Rattle.stripe_io.specs.sb_specs_Reading.{entry_of};
ghost use Rattle.sb_add_spare.specs.array_members_Placed.{IsPlaced};
ghost use Rattle.sb_add_spare.specs.crash_views_Regions.{DoWithout};
ghost use Rattle.sb_add_spare.specs.array_members_Numbers.{IsSpareSb};
ghost use Rattle.array_call_laws.specs.array_call_specs_Calls.{IsTaken, IsFirstOffset, IsUnaddable};

use crate::holders::{first_offset, holds_role};
use crate::refusing::refusal_of;
use sb_add_spare::device::spare_sb;
use sb_add_spare::is_spare;
use stripe_io::{Bank, Members, Refusal, Sb};

// Whether the slot is the backup, holds a role or is a spare.
fn is_taken(members: &Members, backup: Option<u32>, slot: u32) -> bool
    requires few { length members.now.roles ≤ 16 }
    ensures yes { result ≡ true → IsTaken backup members.now slot }
    ensures no { result ≡ false → IsTaken backup members.now slot → ⊥ }
{
    backup == Some(slot) || holds_role(members, slot) || is_spare(members, slot)
}

/// Why a slot isn't made a spare, before it is touched: the first of `NoSuchSlot`, `SlotTaken`, `TooManyMissing` and
/// `SlotTooSmall`.
pub fn unaddable<B: Bank>(
    members: &Members,
    bank: &B,
    backup: Option<u32>,
    slot: u32,
) -> Option<Refusal>
    requires placed { IsPlaced (B.given bank.now) members.now }
    ensures { MatchOption result ((refusal : Refusal) → IsUnaddable (B.given bank.now) backup slot members.now refusal → ⊥) (IsUnaddable (B.given bank.now) backup slot members.now) }
{
    if slot >= bank.slots() {
        return Some(Refusal::NoSuchSlot(slot));
    }
    if is_taken(members, backup, slot) {
        return Some(Refusal::SlotTaken(slot));
    }
    if let Some(refusal) = refusal_of(members, 0, 0) {
        return Some(refusal);
    }
    let have = bank.len(slot);
    let want = first_offset(members) + members.newest.size;
    if have < want {
        return Some(Refusal::SlotTooSmall(have, want));
    }
    None
}

/// The superblock of a slot that is made a spare, with this device number and these role entries in its second sector.
pub fn spare_for<B: Bank>(
    members: &Members,
    bank: &B,
    uuid: &[u8; 16],
    slot: u32,
    number: u32,
    second: &[u16; 256],
) -> Sb
    requires placed { IsPlaced (B.given bank.now) members.now }
    requires slot { slot < (B.given bank.now).slots }
    requires does { DoWithout members.now }
    requires fits { (offset : ℕ) → IsFirstOffset members.now offset → offset + members.now.newest.size ≤ (B.given bank.now).sectors slot }
    requires few { number < 128 }
    requires free { 0xfffe ≤ entry_of members.now.newest number }
    ensures made { IsSpareSb (B.given bank.now) members.now.newest slot result }
    ensures number { result.dev_number ≡ number }
    ensures offset { IsFirstOffset members.now result.data_offset }
    ensures uuid { result.set_uuid ≡ uuid.now }
    ensures second { drop 128 result.dev_roles ≡ second.now }
{
    let offset = first_offset(members);
    let sectors = bank.len(slot);
    spare_sb(&members.newest, uuid, number, offset, sectors, second)
}
