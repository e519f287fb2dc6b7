//! The level of an array is taken over: 5 to 6, or 6 to 5.

ghost use Rattle.std.specs.Prelude.{◌≡◌, ◌≢◌, ◌+◌, ◌⊎◌, ◌≤◌, ◌<◌, ◌^◌, ◌++◌, ◌∷◌, ◌&&◌, [], ℕ, nat_lt, true, length, vec_capacity, IfOk, IfErr, IsTrue, IfSome, false};
ghost use Rattle.std.specs.List.{list_any};
ghost use Rattle.array_takeover_laws.specs.raid_types_Shapes.{has_slot, is_valid_shape};
ghost use Rattle.array_takeover_laws.specs.raid_types_the_Shape.{Shape as AShape};
ghost use Rattle.array_fixed_sync.specs.reshape_plan_Plans.{AreSound};
ghost use Rattle.array_fixed_sync.specs.sb_specs_Reading.{shape_of, role_count, is_reshaping};
ghost use Rattle.array_fixed_sync.specs.stripe_row_Rows.{reading_of};
ghost use Rattle.array_fixed_sync.specs.history_the_Event_TheVariants.{Step, Refused};
ghost use Rattle.array_fixed_sync.specs.history_the_StepKind_TheVariants.{TakenOver as HasTaken};
ghost use Rattle.array_fixed_sync.specs.history_Plain.{entries_of};
ghost use Rattle.array_fixed_sync.specs.crash_views_Regions.{AreShapesFit};
ghost use Rattle.array_fixed_sync.specs.array_members_Placed.{is_unassigned};
ghost use Rattle.array_fixed_sync.specs.array_members_Status.{left_of, stripes_of};
ghost use Rattle.array_takeover_laws.specs.history_append_Losing.{losses_of};
ghost use Rattle.array_fixed_sync.specs.array_call_specs_Kept.{scope_in};
ghost use Rattle.array_fixed_sync.specs.reshape_request_Left.{phases_of};
ghost use Rattle.array_fixed_sync.specs.history_invariant_Recorded.{IsCallGoing};
ghost use Rattle.array_fixed_sync.specs.array_specs_Calls.{moving_world};
ghost use Rattle.array_fixed_sync.specs.array_specs_Parts.{RunningParts, still_left};
ghost use Rattle.array_fixed_sync.specs.array_specs_Plans.{ArePlansKept, turns_shape};
ghost use Rattle.array_fixed_sync.specs.array_fixed_laws_Ready.{IsReady};
ghost use Rattle.array_fixed_sync.specs.array_fixed_invariant_reshape_progress_Laws.{closed};
ghost use Rattle.array_takeover.specs.TakenOver.{IsTakeoverNext, IsUntaken, IsUntouched, IsLevelTaken, work_then};

use crate::choosing::taken_slot;
use array_fixed_sync::{
    Array, Bank, Entries, Epoch, Event, Members, PhasesLeft, Pieces, StepKind, Work, planned_left,
    set_rebuilt, steps_left, unassigned_roles,
};
use array_takeover_laws::{Refusal, Shape, Who, append_entry, append_lost};
use reshape_sb_takeover::take_over as take_level;

// The number of a call that goes on is at most the number of entries.
fn check_going(entries: &Entries, who: Who)
    requires { IsCallGoing entries.now.items who }
    ensures { who.number ≤ length entries.now.items }
{
    let _ = entries.next_number(who.caller);
}

// Of the last role of level 6 nothing is rebuilt.
fn mark_unbuilt(work: &mut Work, to: &Shape)
    requires least { 1 ≤ to.now.disks }
    requires most { to.now.disks ≤ 16 }
    ensures work { work.new ≡ work_then to.now work.old }
    ensures long { to.now.level ≡ 6 → to.now.disks ≤ length work.old.rebuilt }
{
    if to.level == 6 {
        set_rebuilt(work, to.disks - 1, 0);
    }
}

// What is told of a takeover: the steps that are left, and what the update lost.
#[derive(Clone, Copy)]
struct TakenTold {
    left: u64,
    roles: u32,
    spares: u32,
}

fn told_of(
    members: &Members,
    work: &Work,
    to: &Shape,
    behind: &PhasesLeft,
    spares: u32,
) -> TakenTold
    requires fit { AreShapesFit members.now.newest }
    requires shape { shape_of members.now.newest ≡ to.now }
    requires size { members.now.newest.size ≤ 2 ^ 48 }
    requires roles { length members.now.roles ≡ to.now.disks }
    requires progress { IfSome work.now.resync (λ mended. mended ≤ stripes_of members.now) }
    requires sound { AreSound to.now members.now.newest.size (phases_of behind.now) }
    ensures left { result.left ≡ still_left work.now members.now behind.now }
    ensures roles { (role : ℕ) → has_slot result.roles role ≡ (nat_lt role (length members.now.roles) && is_unassigned (reading_of members.now) role) }
    ensures spares { result.spares ≡ spares }
{
    let own = steps_left(members, work);
    let count = members.roles.len() as u32;
    TakenTold {
        left: own + planned_left(to, members.newest.size, behind),
        roles: unassigned_roles(members, count),
        spares,
    }
}

// Enters that the level was taken over, and then what its update lost.
fn enter_taken(epoch: &mut Epoch, who: Who, end: u64, told: &TakenTold)
    requires room { 49 ≤ epoch.old.entries.room }
    requires number { who.number ≤ length epoch.old.entries.items }
    ensures items { epoch.new.entries.items ≡ epoch.old.entries.items ++ entries_of who end (Step HasTaken told.now.left ∷ losses_of told.now.roles told.now.spares) }
    ensures room { epoch.old.entries.room ≤ epoch.new.entries.room + 49 }
    ensures uuid { epoch.new.uuid ≡ epoch.old.uuid }
    ensures given { epoch.new.given ≡ epoch.old.given }
    ensures first { epoch.new.first ≡ epoch.old.first }
{
    let event = Event::Step {
        kind: StepKind::TakenOver,
        left: told.left,
    };
    append_entry(epoch, who, end, event);
    append_lost(epoch, who, end, told.roles, told.spares);
}

// The array, in whose history a plan was told, goes on as it was, and the step is refused.
fn give_back<B: Bank>(pieces: Pieces<B>, who: Who, refusal: Refusal) -> Array<B>
    requires ready { IsReady B.tells (B.given pieces.bank) (B.tape pieces.bank) (scope_in (B.given pieces.bank) pieces.epoch.uuid pieces.epoch.given pieces.backup)
        pieces.epoch.first pieces.epoch.entries.items pieces.members pieces.work pieces.ahead pieces.limit (B.faults_of pieces.bank) pieces.steps pieces.epoch.entries.room
        (vec_capacity pieces.rows) (length pieces.buffer.items) (vec_capacity pieces.far_rows) (length pieces.far_buffer.items) }
    requires open { IsCallGoing pieces.epoch.entries.items who }
    requires caller { who.caller ≢ 254 }
    requires room { 1 ≤ pieces.steps }
    requires told { list_any (λ e. turns_shape e.event) pieces.epoch.entries.items ≡ true }
    requires why { (to : AShape) × IsUntaken pieces.members to refusal }
    ensures back { let old : RunningParts B = record {
      parts = record {
        bank = pieces.bank;
        uuid = pieces.epoch.uuid;
        given = pieces.epoch.given;
        first = pieces.epoch.first;
        last = pieces.epoch.last;
        entries = pieces.epoch.entries.items;
        backup = pieces.backup;
        members = pieces.members;
        work = pieces.work;
        steps = pieces.steps;
      };
      course = closed 0;
      ahead = pieces.ahead;
      limit = pieces.limit;
    } in IsUntouched B.tells (B.tape pieces.bank) who refusal old result }
    ensures still { is_reshaping result.parts.members.newest ≡ false }
{
    let mut pieces = pieces;
    pieces.steps -= 1;
    check_going(&pieces.epoch.entries, who);
    let end = pieces.bank.ops();
    append_entry(&mut pieces.epoch, who, end, Event::Refused { refusal });
    Array::of_fixed(pieces)
}

/// The next phase of a plan is done, a takeover of the level to this shape, where nothing else is left to do: the superblocks record
/// it. To level 6 the lowest spare gets the last role, Q, and recovers it from its first row on; to level 5 the slot of the last role
/// becomes a spare. The phases behind it are ahead. It takes no memory.
///
/// Refused, the array goes on as it was: `Degraded` where a role is missing, and `NeedSpares` where there is no spare for Q.
pub fn take_over<B: Bank>(
    still: Array<B>,
    who: Who,
    to: Shape,
    behind: PhasesLeft,
) -> Result<Array<B>, (Array<B>, Refusal)>
    requires open { IsCallGoing still.parts.entries who }
    requires caller { who.caller ≢ 254 }
    requires room { 1 ≤ still.parts.steps }
    requires done { left_of still.parts.work still.parts.members ≡ 0 }
    requires next { IsTakeoverNext (phases_of still.ahead) to (phases_of behind) }
    requires plans { ArePlansKept B.tells (moving_world (B.given still.parts.bank) (B.tape still.parts.bank) still) still }
    requires still { is_reshaping still.parts.members.newest ≡ false }
    ensures taken { IfOk result (λ r. IsLevelTaken B.tells (B.given still.parts.bank) (B.tape still.parts.bank) (B.tape r.parts.bank) (B.faults_of still.parts.bank) (B.faults_of r.parts.bank) who to behind still r) }
    ensures still { IfOk result (λ r. is_reshaping r.parts.members.newest ≡ false) }
    ensures left_still { IfErr result (λ e. is_reshaping e.0.parts.members.newest ≡ false) }
    ensures given { IfOk result (λ r. B.given r.parts.bank ≡ B.given still.parts.bank) }
    ensures refused { IfErr result (λ e. IsUntouched B.tells (B.tape still.parts.bank) who e.1 still e.0) }
    ensures caused { IfErr result (λ e. IsUntaken still.parts.members to e.1) }
{
    let mut pieces = still.part_fixed();
    let slot = match taken_slot(&pieces.members, &to) {
        Ok(slot) => slot,
        Err(refusal) => return Err((give_back(pieces, who, refusal), refusal)),
    };
    pieces.steps -= 1;
    check_going(&pieces.epoch.entries, who);
    let spares = take_level(&mut pieces.members, &mut pieces.bank, &to, slot);
    let end = pieces.bank.ops();
    mark_unbuilt(&mut pieces.work, &to);
    let told = told_of(&pieces.members, &pieces.work, &to, &behind, spares);
    enter_taken(&mut pieces.epoch, who, end, &told);
    pieces.ahead = behind;
    Ok(Array::of_fixed(pieces))
}
