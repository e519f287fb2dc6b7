//! A reshape begins in an array that had none.

ghost use Rattle.std.specs.Prelude.{◌≡◌, ◌≢◌, ◌⊎◌, ◌+◌, ◌*◌, ◌<◌, ◌≤◌, ◌&&◌, ◌++◌, ◌∷◌, [], ℕ, nat_lt, true, false, length, vec_capacity, Some, IfOk, IfErr};
ghost use Rattle.std.specs.List.{list_any};
ghost use Rattle.array_reshaping_steps.specs.raid_types_Shapes.{has_slot};
ghost use Rattle.array_reshaping_steps.specs.raid_types_the_Phase_TheVariants.{Reshape};
ghost use Rattle.array_reshaping_steps.specs.raid_types_the_Refusal_TheVariants.{BackupFault};
ghost use Rattle.array_reshaping_steps.specs.bank_Given.{IsFaulted, NeverFalls};
ghost use Rattle.array_reshaping_steps.specs.reshape_plan_Plans.{phase_window, AreSound};
ghost use Rattle.array_reshaping_steps.specs.sb_specs_Reading.{is_backward, shape_of, final_shape, list_length, role_count, is_reshaping};
ghost use Rattle.array_reshaping_steps.specs.stripe_row_Rows.{reading_of};
ghost use Rattle.array_reshaping_steps.specs.history_the_Event_TheVariants.{Step};
ghost use Rattle.array_reshaping_steps.specs.history_the_StepKind_TheVariants.{Begun};
ghost use Rattle.array_reshaping_steps.specs.history_Plain.{entries_of};
ghost use Rattle.array_reshaping_steps.specs.crash_views_Regions.{AreShapesFit};
ghost use Rattle.array_reshaping_steps.specs.array_members_Moving.{Grows};
ghost use Rattle.array_reshaping_steps.specs.array_members_Placed.{is_unassigned};
ghost use Rattle.array_reshaping_steps.specs.array_members_Status.{left_of};
ghost use Rattle.array_reshaping_steps.specs.history_append_Losing.{losses_of};
ghost use Rattle.array_reshaping_steps.specs.array_call_specs_Kept.{scope_in};
ghost use Rattle.array_reshaping_steps.specs.reshape_request_the_Window_TheVariants.{Closed};
ghost use Rattle.array_reshaping_steps.specs.reshape_request_Left.{phases_of, grow_left, IsReshapeUnderWay};
ghost use Rattle.array_reshaping_steps.specs.history_invariant_Recorded.{IsCallGoing};
ghost use Rattle.array_reshaping_steps.specs.reshape_progress_Laws.{closed};
ghost use Rattle.array_reshaping_steps.specs.array_specs_Parts.{RunningParts};
ghost use Rattle.array_reshaping_steps.specs.array_specs_Plans.{turns_shape};
ghost use Rattle.array_reshaping_steps.specs.array_fixed_laws_Ready.{IsReady};
ghost use Rattle.array_transition.specs.Begun.{begun_length, HasKeptLength, IsBackupAt, IsPlain, IsReshapeBegun, IsGivenBack, IsBeginRefused};

use crate::refusing::unbegun;
use array_reshaping_steps::{
    Array, Bank, Course, Entries, Epoch, Event, Members, PhasesLeft, Pieces, Refusal, Shape,
    StepKind, Who, Window, append_entry, append_lost, begin, contains, is_backward, list_sectors,
    planned_left, reshape_left, unassigned_roles,
};

// The number of a call that goes on is at most the number of entries.
pub(crate) fn check_going(entries: &Entries, who: Who)
    requires { IsCallGoing entries.now.items who }
    ensures { who.number ≤ length entries.now.items }
{
    let _ = entries.next_number(who.caller);
}

// A superblock is kept of each of 32 slots, and a uuid has 16 bytes.
fn check_sizes(members: &Members, uuid: &[u8; 16])
    ensures own { length members.now.own ≡ 32 }
    ensures uuid { length uuid.now ≡ 16 }
{
    let _ = members.own.get(0);
    let _ = uuid.len();
}

// The steps that are left of a reshape to this shape that has just begun, and of the phases behind it.
fn begun_left(members: &Members, to: &Shape, behind: &PhasesLeft) -> u64
    requires reshape { IsReshapeUnderWay members.now.newest }
    requires to { final_shape members.now.newest ≡ to.now }
    requires sound { AreSound to.now members.now.newest.size (phases_of behind.now) }
    ensures { result ≡ grow_left members.now.newest Closed 0 (phases_of behind.now) }
{
    let moved = reshape_left(members, &Window::Closed, 0);
    moved + planned_left(to, members.newest.size, behind)
}

// Enters the new length, where the list gets shorter.
fn enter_length(epoch: &mut Epoch, who: Who, end: u64, back: bool, size: u64)
    requires room { 1 ≤ epoch.old.entries.room }
    requires number { who.number ≤ length epoch.old.entries.items }
    ensures items { epoch.new.entries.items ≡ epoch.old.entries.items ++ entries_of who end (begun_length back size) }
    ensures room { epoch.old.entries.room ≤ epoch.new.entries.room + 1 }
    ensures uuid { epoch.new.uuid ≡ epoch.old.uuid }
    ensures given { epoch.new.given ≡ epoch.old.given }
    ensures first { epoch.new.first ≡ epoch.old.first }
{
    if !back {
        return;
    }
    append_entry(epoch, who, end, Event::Resized { length: size });
}

// What is told of a begin: the steps that are left, whether the list gets shorter, its length, and what the update lost.
#[derive(Clone, Copy)]
struct BeginTold {
    left: u64,
    back: bool,
    size: u64,
    roles: u32,
    spares: u32,
}

fn told_of(members: &Members, to: &Shape, behind: &PhasesLeft, spares: u32) -> BeginTold
    requires reshape { IsReshapeUnderWay members.now.newest }
    requires to { final_shape members.now.newest ≡ to.now }
    requires sound { AreSound to.now members.now.newest.size (phases_of behind.now) }
    requires fit { AreShapesFit members.now.newest }
    requires roles { length members.now.roles ≡ role_count members.now.newest }
    ensures left { result.left ≡ grow_left members.now.newest Closed 0 (phases_of behind.now) }
    ensures back { result.back ≡ is_backward members.now.newest }
    ensures size { result.size ≡ list_length members.now.newest }
    ensures roles { (role : ℕ) → has_slot result.roles role ≡ (nat_lt role (length members.now.roles) && is_unassigned (reading_of members.now) role) }
    ensures spares { result.spares ≡ spares }
{
    let count = members.roles.len() as u32;
    BeginTold {
        left: begun_left(members, to, behind),
        back: is_backward(&members.newest),
        size: list_sectors(members),
        roles: unassigned_roles(members, count),
        spares,
    }
}

// Enters that a reshape began, the new length, where the list gets shorter, and then what its update lost.
fn enter_begun(epoch: &mut Epoch, who: Who, end: u64, told: &BeginTold)
    requires room { 50 ≤ epoch.old.entries.room }
    requires number { who.number ≤ length epoch.old.entries.items }
    ensures items { epoch.new.entries.items ≡ epoch.old.entries.items
        ++ entries_of who end (Step Begun told.now.left ∷ begun_length told.now.back told.now.size ++ losses_of told.now.roles told.now.spares) }
    ensures room { epoch.old.entries.room ≤ epoch.new.entries.room + 50 }
    ensures uuid { epoch.new.uuid ≡ epoch.old.uuid }
    ensures given { epoch.new.given ≡ epoch.old.given }
    ensures first { epoch.new.first ≡ epoch.old.first }
{
    let event = Event::Step {
        kind: StepKind::Begun,
        left: told.left,
    };
    append_entry(epoch, who, end, event);
    enter_length(epoch, who, end, told.back, told.size);
    append_lost(epoch, who, end, told.roles, told.spares);
}

// The array, in whose history a plan was told, goes on as it was, and the step is refused.
fn give_back<B: Bank>(pieces: Pieces<B>, who: Who, refusal: Refusal) -> Array<B>
    requires ready { IsReady B.tells (B.given pieces.bank) (B.tape pieces.bank) (scope_in (B.given pieces.bank) pieces.epoch.uuid pieces.epoch.given pieces.backup)
        pieces.epoch.first pieces.epoch.entries.items pieces.members pieces.work pieces.ahead pieces.limit (B.faults_of pieces.bank) pieces.steps pieces.epoch.entries.room
        (vec_capacity pieces.rows) (length pieces.buffer.items) (vec_capacity pieces.far_rows) (length pieces.far_buffer.items) }
    requires open { IsCallGoing pieces.epoch.entries.items who }
    requires caller { who.caller ≢ 254 }
    requires room { 1 ≤ pieces.steps }
    requires told { list_any (λ e. turns_shape e.event) pieces.epoch.entries.items ≡ true }
    requires why { IsPlain refusal }
    ensures back { let old : RunningParts B = record {
      parts = record {
        bank = pieces.bank;
        uuid = pieces.epoch.uuid;
        given = pieces.epoch.given;
        first = pieces.epoch.first;
        last = pieces.epoch.last;
        entries = pieces.epoch.entries.items;
        backup = pieces.backup;
        members = pieces.members;
        work = pieces.work;
        steps = pieces.steps;
      };
      course = closed 0;
      ahead = pieces.ahead;
      limit = pieces.limit;
    } in IsGivenBack B.tells (B.given pieces.bank) (B.tape pieces.bank) (B.tape pieces.bank) who refusal old result }
    ensures bank { result.parts.bank ≡ pieces.bank }
    ensures still { is_reshaping result.parts.members.newest ≡ false }
{
    let mut pieces = pieces;
    pieces.steps -= 1;
    check_going(&pieces.epoch.entries, who);
    let end = pieces.bank.ops();
    append_entry(&mut pieces.epoch, who, end, Event::Refused { refusal });
    Array::of_fixed(pieces)
}

// The array goes on as it was, and the step is refused: its backup, which the opening found failing, fails again.
fn fail_backup<B: Bank>(pieces: Pieces<B>, who: Who, backup: u32) -> Array<B>
    requires ready { IsReady B.tells (B.given pieces.bank) (B.tape pieces.bank) (scope_in (B.given pieces.bank) pieces.epoch.uuid pieces.epoch.given pieces.backup)
        pieces.epoch.first pieces.epoch.entries.items pieces.members pieces.work pieces.ahead pieces.limit (B.faults_of pieces.bank) pieces.steps pieces.epoch.entries.room
        (vec_capacity pieces.rows) (length pieces.buffer.items) (vec_capacity pieces.far_rows) (length pieces.far_buffer.items) }
    requires open { IsCallGoing pieces.epoch.entries.items who }
    requires caller { who.caller ≢ 254 }
    requires room { 1 ≤ pieces.steps }
    requires told { list_any (λ e. turns_shape e.event) pieces.epoch.entries.items ≡ true }
    requires slot { backup < (B.given pieces.bank).slots }
    requires failing { has_slot pieces.epoch.given backup ≡ false }
    ensures back { let old : RunningParts B = record {
      parts = record {
        bank = pieces.bank;
        uuid = pieces.epoch.uuid;
        given = pieces.epoch.given;
        first = pieces.epoch.first;
        last = pieces.epoch.last;
        entries = pieces.epoch.entries.items;
        backup = pieces.backup;
        members = pieces.members;
        work = pieces.work;
        steps = pieces.steps;
      };
      course = closed 0;
      ahead = pieces.ahead;
      limit = pieces.limit;
    } in IsGivenBack B.tells (B.given pieces.bank) (B.tape pieces.bank) (B.tape result.parts.bank) who BackupFault old result }
    ensures failed { IsFaulted backup (B.faults_of pieces.bank) (B.faults_of result.parts.bank) }
    ensures never_falls { NeverFalls (B.faults_of pieces.bank) (B.faults_of result.parts.bank) }
    ensures tape { B.tells → B.tape result.parts.bank ≡ B.tape pieces.bank }
    ensures still { is_reshaping result.parts.members.newest ≡ false }
    ensures given { B.given result.parts.bank ≡ B.given pieces.bank }
{
    let mut pieces = pieces;
    let _ = pieces.bank.flush(backup);
    give_back(pieces, who, Refusal::BackupFault)
}

/// The next phase of a plan begins, a reshape to this shape, where nothing else is left to do: the backup's header is cleared, and
/// the superblocks record the reshape, by which the lowest spares get the new roles. To fewer data disks the list gets shorter then. The
/// phases behind it are ahead, and the buffer is that of its windows. It takes no memory.
///
/// Refused, the array goes on as it was, and the buffer is given back: `Degraded` where a role is missing, and `NeedSpares`
/// where there are fewer spares than new roles, with nothing done; and `BackupFault` where the backup failed.
pub fn begin_reshape<B: Bank>(
    still: Array<B>,
    who: Who,
    to: Shape,
    behind: PhasesLeft,
    window: Vec<u8>,
) -> Result<Array<B>, (Array<B>, Vec<u8>, Refusal)>
    requires open { HasKeptLength still.parts.entries who }
    requires caller { who.caller ≢ 254 }
    requires room { 1 ≤ still.parts.steps }
    requires done { left_of still.parts.work still.parts.members ≡ 0 }
    requires next { phases_of still.ahead ≡ Reshape to ∷ phases_of behind }
    requires backed { (slot : ℕ) × (still.parts.backup ≡ Some slot) × IsBackupAt (B.given still.parts.bank) still.parts.members to slot }
    requires wide { 512 * phase_window (shape_of still.parts.members.newest) still.parts.members.newest.size (Reshape to) ≤ length window.items }
    requires still { is_reshaping still.parts.members.newest ≡ false }
    ensures begun { IfOk result (λ r. IsReshapeBegun B.tells (B.given still.parts.bank) (B.tape still.parts.bank) (B.tape r.parts.bank) (B.faults_of still.parts.bank) (B.faults_of r.parts.bank) who to behind still r) }
    ensures active { IfOk result (λ r. is_reshaping r.parts.members.newest ≡ true) }
    ensures left_still { IfErr result (λ e. is_reshaping e.0.parts.members.newest ≡ false) }
    ensures given { IfOk result (λ r. B.given r.parts.bank ≡ B.given still.parts.bank) }
    ensures refused { IfErr result (λ e. IsGivenBack B.tells (B.given still.parts.bank) (B.tape still.parts.bank) (B.tape e.0.parts.bank) who e.2 still e.0) }
    ensures caused { IfErr result (λ e. IsBeginRefused (B.faults_of still.parts.bank) (B.faults_of e.0.parts.bank) to e.2 still e.0) }
    ensures grows { IfErr result (λ e. Grows B.tells (B.tape still.parts.bank) (B.tape e.0.parts.bank)) }
    ensures never_falls { IfErr result (λ e. NeverFalls (B.faults_of still.parts.bank) (B.faults_of e.0.parts.bank)) }
    ensures left_given { IfErr result (λ e. B.given e.0.parts.bank ≡ B.given still.parts.bank) }
    ensures window { IfErr result (λ e. e.1 ≡ window) }
{
    let mut pieces = still.part_fixed();
    if let Some(refusal) = unbegun(&pieces.members, &to) {
        return Err((give_back(pieces, who, refusal), window, refusal));
    }
    let Some(backup) = pieces.backup else {
        unreachable!()
    };
    if !contains(pieces.epoch.given, backup) {
        let still = fail_backup(pieces, who, backup);
        return Err((still, window, Refusal::BackupFault));
    }
    pieces.steps -= 1;
    check_going(&pieces.epoch.entries, who);
    check_sizes(&pieces.members, &pieces.epoch.uuid);
    let begun = begin(
        &mut pieces.members,
        &mut pieces.bank,
        backup,
        &pieces.epoch.uuid,
        &to,
    );
    let end = pieces.bank.ops();
    if let Some(refusal) = begun.refusal {
        append_entry(&mut pieces.epoch, who, end, Event::Refused { refusal });
        return Err((Array::of_fixed(pieces), window, refusal));
    }
    let told = told_of(&pieces.members, &to, &behind, begun.spares);
    enter_begun(&mut pieces.epoch, who, end, &told);
    pieces.ahead = behind;
    let course = Course {
        window: Window::Closed,
        zeroed: 0,
    };
    Ok(Array::of_reshaping(pieces, backup, course, window))
}
