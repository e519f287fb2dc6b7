//! Reads of an array without an active reshape.

ghost use Rattle.std.specs.Prelude.{◌≡◌, ◌≢◌, ◌+◌, ◌/◌, ◌^◌, ◌<◌, ◌≤◌, false, length, OnOk, OnErr, IfSome, IsTrue};
ghost use Rattle.array_type.specs.raid_types_Sectors.{IsWhole, sectors_of};
ghost use Rattle.array_type.specs.raid_types_Shapes.{is_valid_shape, is_multiple};
ghost use Rattle.array_type.specs.bank_Tape.{AreSectors};
ghost use Rattle.array_type.specs.sb_specs_Reading.{is_reshaping, is_clean, shape_of, list_length};
ghost use Rattle.array_type.specs.stripe_row_Rows.{present};
ghost use Rattle.array_type.specs.history_Flat.{next_number, now};
ghost use Rattle.array_type.specs.history_World.{opening_list};
ghost use Rattle.array_type.specs.history_the_Event_TheVariants.{Read};
ghost use Rattle.array_type.specs.history_the_Request_TheVariants.{Read as AsksRead};
ghost use Rattle.array_type.specs.crash_safety_laws_Marking.{AreOthersPresent};
ghost use Rattle.array_type.specs.array_members_Lacking.{HaveRolesFailed, IsUnread, synced_rows};
ghost use Rattle.array_type.specs.array_members_Placed.{AreWhole};
ghost use Rattle.array_type.specs.array_members_Status.{stripes_of};
ghost use Rattle.array_type.specs.sb_safe_updates_First.{read_refusal, call_refusal, IsFirstRefused};
ghost use Rattle.array_type.specs.array_call_specs_Calls.{IsAnswered, IsCausedBy, IsRefusalOf, OnNoMemory};
ghost use Rattle.array_type.specs.history_invariant_Safe.{IsFilledRight};
ghost use Rattle.array_type.specs.array_specs_Calls.{moving_world, IsCalled};
ghost use Rattle.array_type.specs.array_specs_Parts.{visible_size, visible_in};

use array_type::{
    Array, Bank, Event, Fault, Members, Refusal, Sectors, Who, append_after_losses, append_entry,
    check_number, first_read_refusal, newly_unassigned, read_listed, sectors_at_rest, shape_in,
    synced_rows, unassigned_roles, visible_of, zeros,
};

// Why so many sectors from one on aren't read, before any is: the first of `PastEnd`, `TooManyMissing` and `NotResynced`.
fn unread_here(
    members: &Members,
    limit: Option<u64>,
    resync: Option<u64>,
    at: u64,
    count: u64,
) -> Option<Refusal>
    requires still { is_reshaping members.now.newest ≡ false }
    requires shape { IsTrue (is_valid_shape (shape_of members.now.newest)) }
    requires multiple { IsTrue (is_multiple members.now.newest.size (shape_of members.now.newest).chunk) }
    requires roles { (shape_of members.now.newest).disks ≤ length members.now.roles }
    requires size { members.now.newest.size ≤ 2 ^ 48 }
    requires progress { IfSome resync (λ mended. mended ≤ stripes_of members.now) }
    requires short { at + count < 2 ^ 63 }
    ensures first { result ≡ call_refusal (visible_size members.now limit) (at + count) (read_refusal (shape_of members.now.newest) (synced_rows resync members.now) at count members.now) }
    ensures why { IsRefusalOf (visible_size members.now limit) (at + count) (IsUnread (shape_of members.now.newest) (synced_rows resync members.now) at count) members.now result }
{
    let size = sectors_at_rest(members);
    let sectors = visible_of(size, limit);
    if sectors < at + count {
        return Some(Refusal::PastEnd(sectors));
    }
    let mended = synced_rows(members, resync);
    first_read_refusal(members, &shape_in(members), at, count, mended)
}

/// Fills `into`, of whole sectors, with those of the list from `at` on; what a missing member held is filled in from the
/// others. Refusals: `PastEnd`, `TooManyMissing`, and `NotResynced` where a resync is pending.
pub fn read<B: Bank>(still: &mut Array<B>, who: Who, at: u64, into: &mut [u8]) -> Result<(), Fault>
    requires next { who.number ≡ next_number who.caller still.old.parts.entries }
    requires caller { who.caller ≢ 254 }
    requires whole { IsWhole into.old }
    requires short { at + length into.old / 512 < 2 ^ 63 }
    requires still { is_reshaping still.old.parts.members.newest ≡ false }
    ensures answered { IsAnswered (list_length still.old.parts.members.newest) (AsksRead at (length into.old / 512)) who still.old.parts.entries still.new.parts.entries (Read at (sectors_of into.new)) result }
    ensures holds { OnOk result (B.tells → IsFilledRight (moving_world (B.given still.old.parts.bank) (B.tape still.old.parts.bank) still.old) still.new.parts.entries
        → AreSectors (now (opening_list (moving_world (B.given still.old.parts.bank) (B.tape still.old.parts.bank) still.old)) still.old.parts.entries) at into.new) }
    ensures unread { OnErr result (into.new ≡ into.old) }
    ensures unchanged { OnNoMemory result (still.new ≡ still.old) }
    ensures called { IsCalled B.tells (B.given still.old.parts.bank) (B.tape still.old.parts.bank) (B.tape still.new.parts.bank) (B.faults_of still.old.parts.bank) (B.faults_of still.new.parts.bank) still.old still.new }
    ensures whole { AreWhole still.new.parts.members → AreWhole still.old.parts.members }
    ensures tape { AreWhole still.new.parts.members → B.tells → B.tape still.new.parts.bank ≡ B.tape still.old.parts.bank }
    ensures others { B.tells → AreOthersPresent (present (B.given still.old.parts.bank) (B.tape still.old.parts.bank)) (present (B.given still.old.parts.bank) (B.tape still.new.parts.bank)) }
    ensures clean { is_clean still.new.parts.members.newest ≡ is_clean still.old.parts.members.newest }
    ensures caused { IsCausedBy (visible_in still.old) (at + length into.old / 512) (IsUnread (shape_of still.old.parts.members.newest) (synced_rows still.old.parts.work.resync still.old.parts.members) at (length into.old / 512)) still.old.parts.members still.new.parts.members result }
    ensures first { IsFirstRefused (λ members. call_refusal (visible_in still.old) (at + length into.old / 512)
        (read_refusal (shape_of still.old.parts.members.newest) (synced_rows still.old.parts.work.resync still.old.parts.members) at (length into.old / 512) members)) still.old.parts.members still.new.parts.members result }
    ensures failed { HaveRolesFailed still.old.parts.members still.new.parts.members (B.faults_of still.old.parts.bank) (B.faults_of still.new.parts.bank) }
    ensures still { is_reshaping still.new.parts.members.newest ≡ false }
    ensures given { B.given still.new.parts.bank ≡ B.given still.old.parts.bank }
{
    let mut bytes = match zeros(still.alloc, into.len()) {
        Ok(bytes) => bytes,
        Err(fault) => return Err(fault),
    };
    match still.epoch.entries.make_room(50) {
        Ok(()) => {}
        Err(_) => return Err(Fault::NoMemory),
    }
    still.steps = 0;
    check_number(&still.epoch.entries, who);
    let count = (into.len() / 512) as u64;
    if let Some(refusal) = unread_here(&still.members, still.limit, still.work.resync, at, count) {
        let end = still.bank.ops();
        append_entry(&mut still.epoch, who, end, Event::Refused { refusal });
        return Err(Fault::Refused(refusal));
    }
    let shape = shape_in(&still.members);
    let before = unassigned_roles(&still.members, shape.disks);
    let mended = synced_rows(&still.members, still.work.resync);
    let fetched = read_listed(
        &mut still.members,
        &mut still.bank,
        &shape,
        at,
        bytes.as_mut_slice(),
        still.buffer.as_mut_slice(),
        mended,
    );
    let roles = newly_unassigned(&still.members, shape.disks, before);
    let end = still.bank.ops();
    if let Some(refusal) = fetched.refusal {
        let event = Event::Refused { refusal };
        append_after_losses(&mut still.epoch, who, end, roles, fetched.spares, event);
        return Err(Fault::Refused(refusal));
    }
    into.copy_from_slice(bytes.as_slice());
    let body = Sectors::from_bytes(bytes);
    let event = Event::Read { at, body };
    append_after_losses(&mut still.epoch, who, end, roles, fetched.spares, event);
    Ok(())
}
