//! Writes to an array without an active reshape.

ghost use Rattle.std.specs.Prelude.{◌≡◌, ◌≢◌, ◌+◌, ◌/◌, ◌^◌, ◌<◌, ◌≤◌, false, length, OnOk, OnErr, IfSome, IsFalse, IsTrue};
ghost use Rattle.array_type.specs.raid_types_Sectors.{IsWhole, sectors_of};
ghost use Rattle.array_type.specs.raid_types_Shapes.{is_valid_shape, is_multiple};
ghost use Rattle.array_type.specs.sb_specs_Reading.{is_reshaping, is_clean, shape_of, list_length};
ghost use Rattle.array_type.specs.stripe_row_Rows.{present};
ghost use Rattle.array_type.specs.history_Flat.{next_number};
ghost use Rattle.array_type.specs.history_the_Event_TheVariants.{Wrote};
ghost use Rattle.array_type.specs.history_the_Request_TheVariants.{Write as AsksWrite};
ghost use Rattle.array_type.specs.crash_safety_laws_Marking.{AreOthersPresent};
ghost use Rattle.array_type.specs.array_members_Lacking.{HaveRolesFailed, IsUnwritten, are_synced, synced_rows};
ghost use Rattle.array_type.specs.array_members_Placed.{AreWhole};
ghost use Rattle.array_type.specs.array_members_Status.{stripes_of};
ghost use Rattle.array_type.specs.sb_safe_updates_First.{write_refusal, call_refusal, IsFirstRefused};
ghost use Rattle.array_type.specs.array_call_specs_Calls.{IsAnswered, IsCausedBy, IsRefusalOf, OnNoMemory, has_torn};
ghost use Rattle.array_type.specs.array_specs_Calls.{IsCalled};
ghost use Rattle.array_type.specs.array_specs_Parts.{visible_size, visible_in};

use array_type::{
    Array, Bank, Event, Fault, Members, Refusal, Sectors, Who, append_after_losses, append_entry,
    append_failure, are_synced, check_number, first_write_refusal, newly_unassigned,
    sectors_at_rest, shape_in, unassigned_roles, visible_of, write_listed,
};

// Why so many sectors from one on aren't written, before any row is read: the first of `PastEnd`, `TooManyMissing` and `NotResynced`.
fn unwritten_here(
    members: &Members,
    limit: Option<u64>,
    resync: Option<u64>,
    at: u64,
    count: u64,
) -> Option<Refusal>
    requires still { is_reshaping members.now.newest ≡ false }
    requires shape { IsTrue (is_valid_shape (shape_of members.now.newest)) }
    requires multiple { IsTrue (is_multiple members.now.newest.size (shape_of members.now.newest).chunk) }
    requires roles { (shape_of members.now.newest).disks ≤ length members.now.roles }
    requires size { members.now.newest.size ≤ 2 ^ 48 }
    requires progress { IfSome resync (λ mended. mended ≤ stripes_of members.now) }
    requires short { at + count < 2 ^ 63 }
    ensures first { result ≡ call_refusal (visible_size members.now limit) (at + count) (write_refusal (shape_of members.now.newest) (are_synced (shape_of members.now.newest) (synced_rows resync members.now) (at + count)) members.now) }
    ensures why { IsRefusalOf (visible_size members.now limit) (at + count) (IsUnwritten (shape_of members.now.newest) (are_synced (shape_of members.now.newest) (synced_rows resync members.now) (at + count))) members.now result }
{
    let size = sectors_at_rest(members);
    let sectors = visible_of(size, limit);
    if sectors < at + count {
        return Some(Refusal::PastEnd(sectors));
    }
    let shape = shape_in(members);
    first_write_refusal(
        members,
        &shape,
        are_synced(members, resync, &shape, at + count),
    )
}

/// Makes the list hold `from`, of 1 to 128 whole sectors, from `at` on. Refusals: `PastEnd`, `TooManyMissing`, and
/// `NotResynced` where a resync is pending.
pub fn write<B: Bank>(still: &mut Array<B>, who: Who, at: u64, from: &[u8]) -> Result<(), Fault>
    requires next { who.number ≡ next_number who.caller still.old.parts.entries }
    requires caller { who.caller ≢ 254 }
    requires whole { IsWhole from.now }
    requires few { length from.now / 512 ≤ 128 }
    requires short { at + length from.now / 512 < 2 ^ 63 }
    requires still { is_reshaping still.old.parts.members.newest ≡ false }
    ensures answered { IsAnswered (list_length still.old.parts.members.newest) (AsksWrite at (sectors_of from.now)) who still.old.parts.entries still.new.parts.entries (Wrote at (sectors_of from.now)) result }
    ensures unchanged { OnNoMemory result (still.new ≡ still.old) }
    ensures called { IsCalled B.tells (B.given still.old.parts.bank) (B.tape still.old.parts.bank) (B.tape still.new.parts.bank) (B.faults_of still.old.parts.bank) (B.faults_of still.new.parts.bank) still.old still.new }
    ensures whole { AreWhole still.new.parts.members → AreWhole still.old.parts.members }
    ensures dirty { OnOk result (is_clean still.new.parts.members.newest ≡ false) }
    ensures untouched { OnErr result (IsFalse (has_torn still.old.parts.entries still.new.parts.entries) → B.tells
        → AreOthersPresent (present (B.given still.old.parts.bank) (B.tape still.old.parts.bank)) (present (B.given still.old.parts.bank) (B.tape still.new.parts.bank))) }
    ensures caused { IsCausedBy (visible_in still.old) (at + length from.now / 512) (IsUnwritten (shape_of still.old.parts.members.newest)
        (are_synced (shape_of still.old.parts.members.newest) (synced_rows still.old.parts.work.resync still.old.parts.members) (at + length from.now / 512))) still.old.parts.members still.new.parts.members result }
    ensures first { IsFirstRefused (λ members. call_refusal (visible_in still.old) (at + length from.now / 512)
        (write_refusal (shape_of still.old.parts.members.newest) (are_synced (shape_of still.old.parts.members.newest) (synced_rows still.old.parts.work.resync still.old.parts.members) (at + length from.now / 512)) members)) still.old.parts.members still.new.parts.members result }
    ensures failed { HaveRolesFailed still.old.parts.members still.new.parts.members (B.faults_of still.old.parts.bank) (B.faults_of still.new.parts.bank) }
    ensures still { is_reshaping still.new.parts.members.newest ≡ false }
    ensures given { B.given still.new.parts.bank ≡ B.given still.old.parts.bank }
{
    let body = match Sectors::copy_of(still.alloc, from) {
        Ok(body) => body,
        Err(_) => return Err(Fault::NoMemory),
    };
    match still.epoch.entries.make_room(51) {
        Ok(()) => {}
        Err(_) => return Err(Fault::NoMemory),
    }
    still.steps = 0;
    check_number(&still.epoch.entries, who);
    let count = (from.len() / 512) as u64;
    if let Some(refusal) = unwritten_here(
        &still.members,
        still.limit,
        still.work.resync,
        at,
        count,
    ) {
        let end = still.bank.ops();
        append_entry(&mut still.epoch, who, end, Event::Refused { refusal });
        return Err(Fault::Refused(refusal));
    }
    let shape = shape_in(&still.members);
    let before = unassigned_roles(&still.members, shape.disks);
    let synced = are_synced(&still.members, still.work.resync, &shape, at + count);
    let done = write_listed(
        &mut still.members,
        &mut still.bank,
        &shape,
        at,
        count,
        from,
        &mut still.rows,
        &mut still.buffer,
        synced,
    );
    let roles = newly_unassigned(&still.members, shape.disks, before);
    let end = still.bank.ops();
    if let Some(refusal) = done.refusal {
        append_failure(
            &mut still.epoch,
            who,
            end,
            roles,
            done.spares,
            done.begun,
            at,
            body,
            refusal,
        );
        return Err(Fault::Refused(refusal));
    }
    let event = Event::Wrote { at, body };
    append_after_losses(&mut still.epoch, who, end, roles, done.spares, event);
    Ok(())
}
