//! Reads of an array in a reshape.

ghost use Rattle.std.specs.Prelude.{◌≡◌, ◌≢◌, ◌+◌, ◌-◌, ◌*◌, ◌/◌, ◌^◌, ◌<◌, ◌≤◌, length, None, IfSome, OnOk, OnErr, true};
ghost use Rattle.array_reshaping_steps.specs.bank_Tape.{AreSectors};
ghost use Rattle.array_reshaping_steps.specs.raid_types_Sectors.{IsWhole, sectors_of};
ghost use Rattle.array_reshaping_steps.specs.sb_specs_Reading.{is_clean, list_length, is_reshaping};
ghost use Rattle.array_reshaping_steps.specs.stripe_row_Rows.{present};
ghost use Rattle.array_reshaping_steps.specs.history_World.{opening_list};
ghost use Rattle.array_reshaping_steps.specs.history_Flat.{next_number, now};
ghost use Rattle.array_reshaping_steps.specs.history_the_Event_TheVariants.{Read};
ghost use Rattle.array_reshaping_steps.specs.history_the_Request_TheVariants.{Read as AsksRead};
ghost use Rattle.array_reshaping_steps.specs.crash_safety_laws_Marking.{AreOthersPresent};
ghost use Rattle.array_reshaping_steps.specs.array_members_Lacking.{HaveRolesFailed};
ghost use Rattle.array_reshaping_steps.specs.array_call_specs_Calls.{IsAnswered, IsCausedBy, IsRefusalOf, OnNoMemory};
ghost use Rattle.array_reshaping_steps.specs.stripe_region_resync_Resyncs.{relied_sector};
ghost use Rattle.array_reshaping_steps.specs.reshape_progress_Course.{hidden_in};
ghost use Rattle.array_reshaping_steps.specs.array_reshaping_state_First.{IsUnreadAround};
ghost use Rattle.array_reshaping_steps.specs.history_invariant_laws_Reliable.{IsReliable};
ghost use Rattle.array_reshaping_steps.specs.array_specs_Calls.{moving_world, IsCalled};
ghost use Rattle.array_reshaping_steps.specs.array_specs_Parts.{visible_in};
ghost use Rattle.array_reshaping_steps.specs.array_reshaping_laws_Refusing.{first_refusal, IsFirstFor};

use array_reshaping_steps::{
    Array, Bank, Event, Fault, Sectors, Span, Who, append_after_losses, append_entry,
    backed_up_span, check_number, first_read_refusal_from, newly_unassigned, read_around_window,
    relied_sector, unassigned_roles, visible, zeros,
};

// How many bytes the sectors of this window have; none where there is none.
fn bytes_of(hidden: Option<Span>, most: usize) -> usize
    requires { IfSome hidden (λ span. 512 * (span.hi - span.lo) ≤ most) }
    ensures long { IfSome hidden (λ span. result ≡ 512 * (span.hi - span.lo)) }
    ensures within { result ≤ most }
{
    match hidden {
        None => 0,
        Some(span) => 512 * span.hi.saturating_sub(span.lo) as usize,
    }
}

// Reads the list's sectors from `at` on, one or more, into `bytes` and then into `into`, where nothing speaks against it.
fn read_some<B: Bank>(
    moving: &mut Array<B>,
    who: Who,
    at: u64,
    mut bytes: Vec<u8>,
    into: &mut [u8],
) -> Result<(), Fault>
    requires next { who.number ≡ next_number who.caller moving.old.parts.entries }
    requires caller { who.caller ≢ 254 }
    requires room { 1 ≤ moving.old.parts.steps }
    requires whole { IsWhole into.old }
    requires some { 0 < length into.old / 512 }
    requires same { length bytes.items ≡ length into.old }
    requires fine { IsRefusalOf (visible_in moving.old) (at + length into.old / 512) (IsUnreadAround (hidden_in moving.old.course.window)
        (relied_sector moving.old.parts.members.newest moving.old.parts.work.resync) at (at + length into.old / 512)) moving.old.parts.members None }
    requires active { is_reshaping moving.old.parts.members.newest ≡ true }
    ensures answered { IsAnswered (list_length moving.old.parts.members.newest) (AsksRead at (length into.old / 512)) who moving.old.parts.entries moving.new.parts.entries (Read at (sectors_of into.new)) result }
    ensures holds { OnOk result (B.tells → IsReliable (moving_world (B.given moving.new.parts.bank) (B.tape moving.new.parts.bank) moving.new) moving.new.parts.entries
        → AreSectors (now (opening_list (moving_world (B.given moving.old.parts.bank) (B.tape moving.old.parts.bank) moving.old)) moving.old.parts.entries) at into.new) }
    ensures unread { OnErr result (into.new ≡ into.old) }
    ensures memory { OnNoMemory result ⊥ }
    ensures called { IsCalled B.tells (B.given moving.old.parts.bank) (B.tape moving.old.parts.bank) (B.tape moving.new.parts.bank) (B.faults_of moving.old.parts.bank) (B.faults_of moving.new.parts.bank) moving.old moving.new }
    ensures others { B.tells → AreOthersPresent (present (B.given moving.old.parts.bank) (B.tape moving.old.parts.bank)) (present (B.given moving.old.parts.bank) (B.tape moving.new.parts.bank)) }
    ensures clean { is_clean moving.new.parts.members.newest ≡ is_clean moving.old.parts.members.newest }
    ensures caused { IsCausedBy (visible_in moving.old) (at + length into.old / 512) (IsUnreadAround (hidden_in moving.old.course.window)
        (relied_sector moving.old.parts.members.newest moving.old.parts.work.resync) at (at + length into.old / 512)) moving.old.parts.members moving.new.parts.members result }
    ensures failed { HaveRolesFailed moving.old.parts.members moving.new.parts.members (B.faults_of moving.old.parts.bank) (B.faults_of moving.new.parts.bank) }
    ensures course { moving.new.course ≡ moving.old.course }
    ensures active { is_reshaping moving.new.parts.members.newest ≡ true }
    ensures given { B.given moving.new.parts.bank ≡ B.given moving.old.parts.bank }
{
    moving.steps -= 1;
    check_number(&moving.epoch.entries, who);
    let hidden = backed_up_span(&moving.course);
    let relied = relied_sector(&moving.members, moving.work.resync);
    let count = moving.members.roles.len() as u32;
    let before = unassigned_roles(&moving.members, count);
    let wide = bytes_of(hidden, moving.window.len());
    let fetched = read_around_window(
        &mut moving.members,
        &mut moving.bank,
        hidden,
        &moving.window.as_slice()[..wide],
        at,
        bytes.as_mut_slice(),
        moving.buffer.as_mut_slice(),
        relied,
    );
    let roles = newly_unassigned(&moving.members, count, before);
    let end = moving.bank.ops();
    if let Some(refusal) = fetched.refusal {
        let event = Event::Refused { refusal };
        append_after_losses(&mut moving.epoch, who, end, roles, fetched.spares, event);
        return Err(Fault::Refused(refusal));
    }
    into.copy_from_slice(bytes.as_slice());
    let body = Sectors::from_bytes(bytes);
    let event = Event::Read { at, body };
    append_after_losses(&mut moving.epoch, who, end, roles, fetched.spares, event);
    Ok(())
}

/// Fills `into`, of whole sectors, with those of the list from `at` on: those of a window whose section is stored from its buffer, and
/// each other by the shape of its region; what a missing member held is filled in from the others. Refusals: `PastEnd`,
/// `TooManyMissing` where more roles are missing than a shape tolerates that places one of them, the first of these, and `NotResynced` where a resync is
/// pending, of a missing role that has one of those others, in a stripe that isn't mended.
pub fn read<B: Bank>(moving: &mut Array<B>, who: Who, at: u64, into: &mut [u8]) -> Result<(), Fault>
    requires next { who.number ≡ next_number who.caller moving.old.parts.entries }
    requires caller { who.caller ≢ 254 }
    requires whole { IsWhole into.old }
    requires short { at + length into.old / 512 < 2 ^ 63 }
    requires active { is_reshaping moving.old.parts.members.newest ≡ true }
    ensures answered { IsAnswered (list_length moving.old.parts.members.newest) (AsksRead at (length into.old / 512)) who moving.old.parts.entries moving.new.parts.entries (Read at (sectors_of into.new)) result }
    ensures holds { OnOk result (B.tells → IsReliable (moving_world (B.given moving.new.parts.bank) (B.tape moving.new.parts.bank) moving.new) moving.new.parts.entries
        → AreSectors (now (opening_list (moving_world (B.given moving.old.parts.bank) (B.tape moving.old.parts.bank) moving.old)) moving.old.parts.entries) at into.new) }
    ensures unread { OnErr result (into.new ≡ into.old) }
    ensures unchanged { OnNoMemory result (moving.new ≡ moving.old) }
    ensures called { IsCalled B.tells (B.given moving.old.parts.bank) (B.tape moving.old.parts.bank) (B.tape moving.new.parts.bank) (B.faults_of moving.old.parts.bank) (B.faults_of moving.new.parts.bank) moving.old moving.new }
    ensures others { B.tells → AreOthersPresent (present (B.given moving.old.parts.bank) (B.tape moving.old.parts.bank)) (present (B.given moving.old.parts.bank) (B.tape moving.new.parts.bank)) }
    ensures clean { is_clean moving.new.parts.members.newest ≡ is_clean moving.old.parts.members.newest }
    ensures caused { IsCausedBy (visible_in moving.old) (at + length into.old / 512) (IsUnreadAround (hidden_in moving.old.course.window)
        (relied_sector moving.old.parts.members.newest moving.old.parts.work.resync) at (at + length into.old / 512)) moving.old.parts.members moving.new.parts.members result }
    ensures first { IsFirstFor (first_refusal moving.old at (length into.old / 512)) result }
    ensures failed { HaveRolesFailed moving.old.parts.members moving.new.parts.members (B.faults_of moving.old.parts.bank) (B.faults_of moving.new.parts.bank) }
    ensures course { moving.new.course ≡ moving.old.course }
    ensures active { is_reshaping moving.new.parts.members.newest ≡ true }
    ensures given { B.given moving.new.parts.bank ≡ B.given moving.old.parts.bank }
{
    let mut bytes = match zeros(moving.alloc, into.len()) {
        Ok(bytes) => bytes,
        Err(fault) => return Err(fault),
    };
    match moving.epoch.entries.make_room(51) {
        Ok(()) => {}
        Err(_) => return Err(Fault::NoMemory),
    }
    moving.steps = 0;
    check_number(&moving.epoch.entries, who);
    let asked = (into.len() / 512) as u64;
    let hidden = backed_up_span(&moving.course);
    let sectors = visible(&moving.members, moving.limit);
    let relied = relied_sector(&moving.members, moving.work.resync);
    if let Some(refusal) = first_read_refusal_from(
        &moving.members,
        hidden,
        sectors,
        relied,
        at,
        asked,
    ) {
        let end = moving.bank.ops();
        append_entry(&mut moving.epoch, who, end, Event::Refused { refusal });
        return Err(Fault::Refused(refusal));
    }
    if asked == 0 {
        let body = Sectors::from_bytes(bytes);
        let end = moving.bank.ops();
        append_entry(&mut moving.epoch, who, end, Event::Read { at, body });
        return Ok(());
    }
    moving.steps = 1;
    read_some(moving, who, at, bytes, into)
}
