//! A reshape ends in an array that is in one.

ghost use Rattle.std.specs.Prelude.{◌≡◌, ◌≢◌, ◌+◌, ◌*◌, ◌^◌, ◌<◌, ◌≤◌, ◌&&◌, ◌||◌, ◌++◌, ◌∷◌, [], ℕ, true, not, nat_lt, length, Some, IfOk, IfErr, IfSome, IsTrue, false};
ghost use Rattle.array_reshaping_steps.specs.raid_types_Shapes.{has_slot, is_valid_shape, data_disks};
ghost use Rattle.array_reshaping_steps.specs.reshape_plan_Plans.{AreSound};
ghost use Rattle.array_reshaping_steps.specs.sb_specs_Reading.{shape_of, final_shape, list_length, role_count, role_state, holder, is_reshaping};
ghost use Rattle.array_reshaping_steps.specs.stripe_row_Rows.{reading_of};
ghost use Rattle.array_reshaping_steps.specs.history_the_Event_TheVariants.{Step, Refused};
ghost use Rattle.array_reshaping_steps.specs.history_the_StepKind_TheVariants.{Finished as HasFinished};
ghost use Rattle.array_reshaping_steps.specs.history_Plain.{entries_of};
ghost use Rattle.array_reshaping_steps.specs.crash_views_Regions.{AreShapesFit};
ghost use Rattle.array_reshaping_steps.specs.array_members_Lacking.{AreTooMany};
ghost use Rattle.array_reshaping_steps.specs.array_members_Placed.{is_unassigned};
ghost use Rattle.array_reshaping_steps.specs.array_members_Status.{stripes_of};
ghost use Rattle.array_reshaping_steps.specs.history_append_Losing.{losses_of};
ghost use Rattle.array_reshaping_steps.specs.array_call_specs_Calls.{IsBehind};
ghost use Rattle.array_reshaping_steps.specs.reshape_request_Left.{phases_of};
ghost use Rattle.array_reshaping_steps.specs.array_reshaping_state_Due.{due_of};
ghost use Rattle.array_reshaping_steps.specs.array_reshaping_state_the_Due_TheVariants.{Finish};
ghost use Rattle.array_reshaping_steps.specs.history_invariant_Recorded.{IsCallGoing};
ghost use Rattle.array_reshaping_steps.specs.array_specs_Calls.{IsCalled, moving_world};
ghost use Rattle.array_reshaping_steps.specs.array_specs_Parts.{still_left};
ghost use Rattle.array_reshaping_steps.specs.array_specs_Plans.{ArePlansKept};
ghost use Rattle.array_transition.specs.Ended.{ended_length, IsReshapeEnded};

use crate::beginning::check_going;
use array_reshaping_steps::{
    Array, Bank, Epoch, Event, Finished, Members, PhasesLeft, Refusal, Role, StepKind, Who, Work,
    append_after_losses, append_entry, append_lost, final_in, finish, list_length, list_sectors,
    newly_unassigned, planned_left, shape_in, steps_left, too_many, unassigned_roles, with,
    without,
};

// The slots that hold a role below this one.
fn holders_below(members: &Members, disks: u32) -> u32
    requires few { disks ≤ length members.now.roles }
    requires small { (role slot : ℕ) → holder (role_state (reading_of members.now) role) ≡ Some slot → slot < 32 }
    ensures all { (role slot : ℕ) → role < disks → holder (role_state (reading_of members.now) role) ≡ Some slot → has_slot result slot ≡ true }
    ensures only { (slot : ℕ) → has_slot result slot ≡ true → (role : ℕ) × (role < disks) × (holder (role_state (reading_of members.now) role) ≡ Some slot) }
{
    let mut set = 0;
    for role in 0..disks {
        match members.roles.get(role) {
            Role::Whole(slot) | Role::Recovering(slot) => set = with(set, slot),
            Role::Missing => {}
        }
    }
    set
}

// The roles that no slot holds, of so many, and that are in neither set.
fn late_roles(members: &Members, disks: u32, first: u32, roles: u32) -> u32
    requires known { disks ≤ length members.now.roles }
    requires few { disks ≤ 32 }
    ensures { (role : ℕ) → has_slot result role ≡ ((nat_lt role disks && is_unassigned (reading_of members.now) role) && not (has_slot first role || has_slot roles role)) }
{
    without(newly_unassigned(members, disks, first), roles)
}

// The steps that are left without a reshape: of the roles that are to be rebuilt, and of the phases ahead.
fn ended_left(members: &Members, work: &Work, ahead: &PhasesLeft) -> u64
    requires shape { IsTrue (is_valid_shape (shape_of members.now.newest)) }
    requires size { members.now.newest.size ≤ 2 ^ 48 }
    requires roles { (shape_of members.now.newest).disks ≤ length members.now.roles }
    requires progress { IfSome work.now.resync (λ mended. mended ≤ stripes_of members.now) }
    requires sound { AreSound (shape_of members.now.newest) members.now.newest.size (phases_of ahead.now) }
    ensures { result ≡ still_left work.now members.now ahead.now }
{
    let left = steps_left(members, work);
    left + planned_left(&shape_in(members), members.newest.size, ahead)
}

// Enters the new length, where the list gets longer.
fn enter_longer(epoch: &mut Epoch, who: Who, end: u64, before: u64, size: u64)
    requires room { 1 ≤ epoch.old.entries.room }
    requires number { who.number ≤ length epoch.old.entries.items }
    ensures items { epoch.new.entries.items ≡ epoch.old.entries.items ++ entries_of who end (ended_length before size) }
    ensures room { epoch.old.entries.room ≤ epoch.new.entries.room + 1 }
    ensures uuid { epoch.new.uuid ≡ epoch.old.uuid }
    ensures given { epoch.new.given ≡ epoch.old.given }
    ensures first { epoch.new.first ≡ epoch.old.first }
{
    if size <= before {
        return;
    }
    append_entry(epoch, who, end, Event::Resized { length: size });
}

// What is known of an array before its reshape ends: how many roles it has, which of them no slot holds, the slots that hold a role of the new
// shape, and the length of the list.
#[derive(Clone, Copy)]
struct Before {
    count: u32,
    vacant: u32,
    held: u32,
    size: u64,
}

fn before_end(members: &Members) -> Before
    requires fit { AreShapesFit members.now.newest }
    requires roles { length members.now.roles ≡ role_count members.now.newest }
    requires small { (role slot : ℕ) → holder (role_state (reading_of members.now) role) ≡ Some slot → slot < 32 }
    ensures count { result.count ≡ length members.now.roles }
    ensures vacant { (role : ℕ) → has_slot result.vacant role ≡ (nat_lt role (length members.now.roles) && is_unassigned (reading_of members.now) role) }
    ensures held { (role slot : ℕ) → role < (final_shape members.now.newest).disks → holder (role_state (reading_of members.now) role) ≡ Some slot → has_slot result.held slot ≡ true }
    ensures only { (slot : ℕ) → has_slot result.held slot ≡ true → (role : ℕ) × (role < (final_shape members.now.newest).disks) × (holder (role_state (reading_of members.now) role) ≡ Some slot) }
    ensures size { result.size ≡ list_length members.now.newest }
{
    let count = members.roles.len() as u32;
    Before {
        count,
        vacant: unassigned_roles(members, count),
        held: holders_below(members, final_in(members).disks),
        size: list_sectors(members),
    }
}

// What is told of an end besides its steps: what its flush lost, the length of the list before it and behind it, and what its update lost.
#[derive(Clone, Copy)]
struct EndTold {
    roles: u32,
    spares: u32,
    before: u64,
    size: u64,
    late: u32,
    late_spares: u32,
}

// A slot that was lost in the update is told as a spare where it held no role of the new shape.
fn told_of(members: &Members, was: &Before, done: &Finished) -> EndTold
    requires shape { IsTrue (is_valid_shape (shape_of members.now.newest)) }
    requires roles { (shape_of members.now.newest).disks ≤ length members.now.roles }
    requires size { members.now.newest.size ≤ 2 ^ 48 }
    ensures roles { result.roles ≡ done.now.roles }
    ensures spares { result.spares ≡ done.now.spares }
    ensures before { result.before ≡ was.now.size }
    ensures size { result.size ≡ data_disks (shape_of members.now.newest) * members.now.newest.size }
    ensures late { (role : ℕ) → has_slot result.late role ≡ ((nat_lt role (shape_of members.now.newest).disks && is_unassigned (reading_of members.now) role)
        && not (has_slot was.now.vacant role || has_slot done.now.roles role)) }
    ensures late_spares { (slot : ℕ) → has_slot result.late_spares slot ≡ (has_slot done.now.lost slot && not (has_slot was.now.held slot)) }
{
    let shape = shape_in(members);
    EndTold {
        roles: done.roles,
        spares: done.spares,
        before: was.size,
        size: list_length(&shape, members.newest.size),
        late: late_roles(members, shape.disks, was.vacant, done.roles),
        late_spares: without(done.lost, was.held),
    }
}

// Enters that a reshape ended, and the new length, where the list gets longer, between what its flush lost and what its update lost.
fn enter_ended(epoch: &mut Epoch, who: Who, end: u64, left: u64, told: &EndTold)
    requires room { 98 ≤ epoch.old.entries.room }
    requires number { who.number ≤ length epoch.old.entries.items }
    ensures items { epoch.new.entries.items ≡ epoch.old.entries.items ++ entries_of who end (losses_of told.now.roles told.now.spares
        ++ Step HasFinished left ∷ (ended_length told.now.before told.now.size ++ losses_of told.now.late told.now.late_spares)) }
    ensures room { epoch.old.entries.room ≤ epoch.new.entries.room + 98 }
    ensures uuid { epoch.new.uuid ≡ epoch.old.uuid }
    ensures given { epoch.new.given ≡ epoch.old.given }
    ensures first { epoch.new.first ≡ epoch.old.first }
{
    let event = Event::Step {
        kind: StepKind::Finished,
        left,
    };
    append_after_losses(epoch, who, end, told.roles, told.spares, event);
    enter_longer(epoch, who, end, told.before, told.size);
    append_lost(epoch, who, end, told.late, told.late_spares);
}

/// A reshape that has gone through the list ends: each slot that holds a role is flushed, and the superblocks record the new shape
/// alone, by which slots whose roles it hasn't become spares. With more data disks the list gets longer then, by zeros. The phases
/// behind it are ahead as they were. It takes no memory, and frees the buffer of the windows.
///
/// Refused `TooManyMissing` where a shape in force misses more roles than it tolerates, before the flush or behind it: the
/// reshape goes on as it was, but for what the flush lost.
pub fn finish_reshape<B: Bank>(moving: Array<B>, who: Who) -> Result<Array<B>, (Array<B>, Refusal)>
    requires open { IsCallGoing moving.parts.entries who }
    requires caller { who.caller ≢ 254 }
    requires room { 2 ≤ moving.parts.steps }
    requires due { due_of moving.parts.members.newest moving.course moving.parts.work.resync ≡ Finish }
    requires plans { ArePlansKept B.tells (moving_world (B.given moving.parts.bank) (B.tape moving.parts.bank) moving) moving }
    requires active { is_reshaping moving.parts.members.newest ≡ true }
    ensures ended { IfOk result (λ r. IsReshapeEnded B.tells (B.given moving.parts.bank) (B.tape moving.parts.bank) (B.tape r.parts.bank) (B.faults_of moving.parts.bank) (B.faults_of r.parts.bank) who moving r) }
    ensures still { IfOk result (λ r. is_reshaping r.parts.members.newest ≡ false) }
    ensures left_active { IfErr result (λ e. is_reshaping e.0.parts.members.newest ≡ true) }
    ensures given { IfOk result (λ r. B.given r.parts.bank ≡ B.given moving.parts.bank) }
    ensures refused { IfErr result (λ e. IsBehind who moving.parts.entries e.0.parts.entries (Refused e.1)) }
    ensures caused { IfErr result (λ e. AreTooMany e.0.parts.members e.1) }
    ensures called { IfErr result (λ e. IsCalled B.tells (B.given moving.parts.bank) (B.tape moving.parts.bank) (B.tape e.0.parts.bank) (B.faults_of moving.parts.bank) (B.faults_of e.0.parts.bank) moving e.0) }
    ensures course { IfErr result (λ e. e.0.course ≡ moving.course) }
    ensures steps { IfErr result (λ e. e.0.parts.steps + 2 ≡ moving.parts.steps) }
    ensures left_given { IfErr result (λ e. B.given e.0.parts.bank ≡ B.given moving.parts.bank) }
{
    let (mut pieces, course, window) = moving.part_reshaping();
    let Some(backup) = pieces.backup else {
        unreachable!()
    };
    pieces.steps -= 2;
    check_going(&pieces.epoch.entries, who);
    if let Some(refusal) = too_many(&pieces.members) {
        let end = pieces.bank.ops();
        append_entry(&mut pieces.epoch, who, end, Event::Refused { refusal });
        return Err((Array::of_reshaping(pieces, backup, course, window), refusal));
    }
    let was = before_end(&pieces.members);
    let done = finish(&mut pieces.members, &mut pieces.bank);
    let end = pieces.bank.ops();
    if let Some(refusal) = done.refusal {
        let roles = newly_unassigned(&pieces.members, was.count, was.vacant);
        let event = Event::Refused { refusal };
        append_after_losses(&mut pieces.epoch, who, end, roles, done.spares, event);
        return Err((Array::of_reshaping(pieces, backup, course, window), refusal));
    }
    let left = ended_left(&pieces.members, &pieces.work, &pieces.ahead);
    let told = told_of(&pieces.members, &was, &done);
    enter_ended(&mut pieces.epoch, who, end, left, &told);
    Ok(Array::of_fixed(pieces))
}
