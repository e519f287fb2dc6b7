//! A reshape begins.

ghost use Rattle.std.specs.Prelude.{◌≡◌, ◌+◌, ◌-◌, ◌<◌, ◌≤◌, ◌^◌, ◌&&◌, nat_lt, ℕ, true, false, not, min, length, pos, ◌-ℤ◌, None, IsTrue};
ghost use Rattle.sb_update.specs.bank_Given.{NeverFalls};
ghost use Rattle.sb_update.specs.bank_Tape.{disk};
ghost use Rattle.sb_update.specs.raid_types_Shapes.{is_valid_shape, has_slot};
ghost use Rattle.sb_update.specs.raid_types_Search.{tabulate, count_below};
ghost use Rattle.sb_update.specs.raid_types_the_Role_TheVariants.{Whole};
ghost use Rattle.sb_update.specs.reshape_geometry_Geometry.{AreInForce};
ghost use Rattle.sb_update.specs.sb_specs_Reading.{Scope, is_reshaping, shape_of, role_state};
ghost use Rattle.sb_update.specs.sb_specs_Reads.{has_spare};
ghost use Rattle.sb_update.specs.sb_specs_Outcome.{live_set, AreLive};
ghost use Rattle.sb_update.specs.sb_specs_Updating.{AreLosses};
ghost use Rattle.crash_reshape_laws.specs.stripe_row_Rows.{reading_of};
ghost use Rattle.crash_reshape_laws.specs.history_World.{World};
ghost use Rattle.crash_reshape_laws.specs.history_Stands.{backup_absent};
ghost use Rattle.crash_reshape_laws.specs.history_Sound.{OpensFit};
ghost use Rattle.crash_reshape_laws.specs.crash_views_Regions.{AreShapesFit, ArePlaced};
ghost use Rattle.crash_reshape_laws.specs.crash_views_Views.{Ledger};
ghost use Rattle.crash_reshape_laws.specs.crash_safety_laws_Safety.{HasRoomLeft, IsRisen};
ghost use Rattle.crash_reshape_laws.specs.crash_safety_laws_Steady.{IsSafeOver, AreGoneTold};
ghost use Rattle.crash_reshape_laws.specs.crash_safety_laws_Updates.{planned_view, IsLessView};
ghost use Rattle.crash_reshape_laws.specs.crash_safety_laws_Changing.{IsChanged, IsSafeChange};
ghost use Rattle.crash_reshape_laws.specs.crash_safety_laws_Giving.{IsToldOf};
ghost use Rattle.crash_reshape_laws.specs.Flushed.{IsBeginning};
ghost use Rattle.crash_reshape_laws.specs.Ends.{IsCleared, IsBegun};
ghost use Rattle.crash_reshape_laws.specs.Plans.{AreGivenFit};
ghost use Rattle.reshape_sb_updates.specs.Beginning.{goes_back, map_with_reshape, first_position, with_reshape, HasBegun, give_where, new_give, beginning};

use sb_update::{
    Bank, Change, Features, Give, Lostness, Members, Sb, Shape, SlotList, data_disks, list_end,
    shape_of, update,
};

const RESHAPE_BITS: u32 = 4 + 32;

// Whether a reshape goes backward: to fewer data disks.
fn goes_back(now: &Shape, to: &Shape) -> bool
    requires now { IsTrue (is_valid_shape now.now) }
    requires to { IsTrue (is_valid_shape to.now) }
    ensures { result ≡ goes_back now.now to.now }
{
    data_disks(to) < data_disks(now)
}

// The feature map while a reshape is active.
fn map_with_reshape(map: u32) -> u32
    ensures { result ≡ map_with_reshape map }
{
    map & !RESHAPE_BITS | Features::RESHAPE_ACTIVE.0
}

// Where a reshape begins: at 0 forward, and at the end of the list backward.
fn first_position(now: &Shape, to: &Shape, size: u64) -> u64
    requires { AreInForce now.now to.now size }
    ensures { result ≡ first_position now.now to.now size }
{
    if goes_back(now, to) {
        list_end(now, to, size)
    } else {
        0
    }
}

// One count less another.
fn difference(count: u32, less: u32) -> i32
    requires count { count ≤ 16 }
    requires less { less ≤ 16 }
    ensures { result ≡ pos count -ℤ pos less }
{
    count as i32 - less as i32
}

// The superblock of an array of one shape, with a reshape that has just begun.
fn with_reshape(to: &Shape, sb: &Sb) -> Sb
    requires still { is_reshaping sb.now ≡ false }
    requires in_force { AreInForce (shape_of sb.now) to.now sb.now.size }
    ensures { result ≡ with_reshape to.now sb.now }
{
    let now = shape_of(sb);
    Sb {
        feature_map: map_with_reshape(sb.feature_map),
        raid_disks: to.disks,
        new_level: to.level,
        reshape_position: first_position(&now, to, sb.size),
        delta_disks: difference(to.disks, now.disks),
        new_layout: to.layout,
        new_chunk: to.chunk,
        ..*sb
    }
}

// A spare gets this role, where there are so many.
fn give_for(is_spare: bool, role: u32, disks: u32) -> Give
    ensures { result ≡ give_where (is_spare && nat_lt role disks) role }
{
    if is_spare && role < disks {
        Give::Role {
            role,
            recovery: None,
        }
    } else {
        Give::Same
    }
}

// The new roles, from the first one on, for the spares in slot order.
fn new_gives(spares: &SlotList, first: u32, disks: u32) -> [Give; 32]
    requires first { first ≤ 16 }
    requires disks { disks ≤ 16 }
    ensures { result ≡ tabulate 32 (new_give spares.now first disks) }
{
    let mut gives = [Give::Same; 32];
    let mut role = first;
    for slot in 0..32u32 {
        let is_spare = spares.contains(slot);
        gives[slot as usize] = give_for(is_spare, role, disks);
        role += u32::from(is_spare);
    }
    gives
}

// The update that begins a reshape to this shape.
fn beginning(members: &Members, to: &Shape) -> Change
    requires still { is_reshaping members.now.newest ≡ false }
    requires in_force { AreInForce (shape_of members.now.newest) to.now members.now.newest.size }
    ensures { result ≡ beginning members.now to.now }
{
    let now = shape_of(&members.newest);
    Change {
        shared: with_reshape(to, &members.newest),
        gives: new_gives(&members.spares, now.disks, to.disks),
        added: None,
    }
}

/// Begins a reshape to this shape, of the same level, in the superblocks of all live slots of an array of one shape. The
/// lowest spares get its new roles; enough of them are needed. Answers the slots that were lost in this.
pub fn begin_update<B: Bank>(members: &mut Members, bank: &mut B, to: &Shape) -> Lostness
    requires live { AreLive (B.given bank.old) members.old }
    requires still { is_reshaping members.old.newest ≡ false }
    requires roles { length members.old.roles ≡ (shape_of members.old.newest).disks }
    requires in_force { AreInForce (shape_of members.old.newest) to.now members.old.newest.size }
    requires level { to.now.level ≡ members.old.newest.level }
    requires spares { to.now.disks ≤ (shape_of members.old.newest).disks + count_below 32 (has_spare members.old.spares) }
    ensures begun { IsChanged B.tells (B.given bank.old) (beginning members.old to.now) members.old members.new (B.tape bank.old) (B.tape bank.new) }
    ensures newest { HasBegun members.old.newest to.now members.new.newest }
    ensures fit { AreShapesFit members.new.newest }
    ensures events { members.new.lost ≡ members.old.lost → members.new.newest.events ≡ min (members.old.newest.events + 1) (2 ^ 64 - 1) }
    ensures beginning { IsBeginning members.old (beginning members.old to.now) }
    ensures plan { (named : ℕ) → IsBegun members.old (planned_view members.old (beginning members.old to.now) named) }
    ensures taken { (role : ℕ) → (shape_of members.old.newest).disks ≤ role → role < to.now.disks
        → (slot : ℕ) × (has_spare members.old.spares slot ≡ true) × (has_slot members.new.lost slot ≡ false → role_state (reading_of members.new) role ≡ Whole slot) }
    ensures less { IsLessView (planned_view members.old (beginning members.old to.now) members.old.lost) members.new }
    ensures placed { (scope : Scope) → ArePlaced scope (B.given bank.old) members.old → backup_absent scope members.new.newest ≡ None
        → AreGivenFit scope (B.given bank.old) members.old (beginning members.old to.now) members.old.lost → ArePlaced scope (B.given bank.new) members.new }
    ensures rise { IsRisen B.tells members.old members.new (B.tape bank.old) (B.tape bank.new) }
    ensures result { (s : ℕ) → has_slot result s ≡ (has_slot members.new.lost s && not (has_slot members.old.lost s)) }
    ensures losses { AreLosses (live_set members.old (beginning members.old to.now)) members.old.lost members.new.lost (B.faults_of bank.old) (B.faults_of bank.new) }
    ensures safe { B.tells → (world : World) → (told more : Ledger) → HasRoomLeft members.old (B.tape bank.old) (B.tape bank.new)
        → ArePlaced world.scope (B.given bank.old) (planned_view members.old (beginning members.old to.now) members.old.lost)
        → IsCleared world.scope (disk (B.given bank.old).start (B.tape bank.old))
        → IsToldOf world.scope (planned_view members.old (beginning members.old to.now) members.old.lost) (disk (B.given bank.old).start (B.tape bank.old)) told more
        → AreGoneTold told members.old → AreGoneTold more members.new → ((slot number : ℕ) → told.carried slot number ≡ true → more.carried slot number ≡ true)
        → IsSafeOver world (B.given bank.old) told members.old (B.tape bank.old)
        → IsSafeChange (OpensFit world) world.scope (B.given bank.old) told more members.new (B.tape bank.old) (B.tape bank.new) }
    ensures live { AreLive (B.given bank.new) members.new }
    ensures counts { NeverFalls (B.faults_of bank.old) (B.faults_of bank.new) }
    ensures given { B.given bank.new ≡ B.given bank.old }
{
    let change = beginning(members, to);
    update(members, bank, &change)
}
