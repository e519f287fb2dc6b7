//! What an array has under way.

ghost use Rattle.std.specs.Prelude.{◌≡◌, ◌<◌, ◌≤◌, ◌==◌, ℕ, false, length, Some, IsTrue};
ghost use Rattle.std.specs.Option.{option_map_or};
ghost use Rattle.stripe_io.specs.raid_types_Shapes.{is_valid_shape};
ghost use Rattle.stripe_io.specs.raid_types_Search.{tabulate};
ghost use Rattle.stripe_io.specs.raid_types_the_Role_TheVariants.{Recovering as IsRecovering};
ghost use Rattle.stripe_io.specs.sb_specs_Reading.{is_reshaping, shape_of, role_state, rows_held, holder};
ghost use Rattle.sb_add_spare.specs.sb_specs_Update.{own_in};
ghost use Rattle.sb_add_spare.specs.stripe_row_Rows.{reading_of};
ghost use Rattle.array_call_laws.specs.array_call_specs_Adopting.{found_stripes, bearers_of, found_work};
ghost use Rattle.array_call_laws.specs.array_call_specs_Calls.{with_rebuilt};

use sb_add_spare::{Work, is_clean, shape_in, with};
use stripe_io::{Members, Role};

// The rows that a recovering slot holds, by its superblock.
fn rows_held(members: &Members, slot: u32) -> u64
    requires slot { slot < 32 }
    requires still { is_reshaping members.now.newest ≡ false }
    ensures { result ≡ rows_held (reading_of members.now) (IsRecovering slot) }
{
    members.own.get(slot).map_or(0, |sb| sb.recovery_offset)
}

// How many stripes of each role the slot holds that recovers it.
fn found_rebuilt(members: &Members, chunk: u64, disks: u32) -> [u64; 16]
    requires chunk { 0 < chunk }
    requires disks { disks ≤ 16 }
    requires roles { disks ≤ length members.now.roles }
    requires small { (role slot : ℕ) → holder (role_state (reading_of members.now) role) ≡ Some slot → slot < 32 }
    requires still { is_reshaping members.now.newest ≡ false }
    ensures { result ≡ tabulate 16 (found_stripes (reading_of members.now) chunk disks) }
{
    let mut rebuilt = [0; 16];
    for role in 0..disks {
        if let Role::Recovering(slot) = members.roles.get(role) {
            rebuilt[role as usize] = rows_held(members, slot) / chunk;
        }
    }
    rebuilt
}

// Whether the superblock of this slot bears the device number.
fn bears(members: &Members, slot: u32, number: u32) -> bool
    requires { slot < 32 }
    ensures { result ≡ option_map_or (λ sb. sb.dev_number == number) (own_in members.now.own slot) false }
{
    members
        .own
        .get(slot)
        .map_or(false, |sb| sb.dev_number == number)
}

// The slots whose superblocks bear it.
fn bearers(members: &Members, number: u32) -> u32
    ensures { result ≡ bearers_of members.now.own number }
{
    let mut slots = 0;
    for slot in 0..32 {
        if bears(members, slot, number) {
            slots = with(slots, slot);
        }
    }
    slots
}

/// For each of the first 128 device numbers the slots whose superblocks bear it.
pub fn found_numbers(members: &Members) -> [u32; 128]
    ensures numbers { result ≡ tabulate 128 (bearers_of members.now.own) }
    ensures slots { length members.now.own ≡ 32 }
{
    let _ = members.own.as_slice();
    let mut carried = [0; 128];
    for number in 0..128 {
        carried[number as usize] = bearers(members, number);
    }
    carried
}

/// What is under way in an array that is found.
pub fn found_work(members: &Members) -> Work
    requires shape { IsTrue (is_valid_shape (shape_of members.now.newest)) }
    requires roles { length members.now.roles ≡ (shape_of members.now.newest).disks }
    requires small { (role slot : ℕ) → holder (role_state (reading_of members.now) role) ≡ Some slot → slot < 32 }
    requires still { is_reshaping members.now.newest ≡ false }
    ensures work { result ≡ found_work members.now }
    ensures slots { length members.now.own ≡ 32 }
{
    let shape = shape_in(members);
    let resync = if is_clean(&members.newest) {
        None
    } else {
        Some(0)
    };
    Work {
        resync,
        rebuilt: found_rebuilt(members, shape.chunk as u64, shape.disks),
        carried: found_numbers(members),
    }
}

/// So many stripes of the role are rebuilt.
pub fn set_rebuilt(work: &mut Work, role: u32, stripes: u64)
    requires role { role < 16 }
    ensures work { work.new ≡ with_rebuilt role stripes work.old }
    ensures known { role < length work.old.rebuilt }
{
    work.rebuilt[role as usize] = stripes;
}
