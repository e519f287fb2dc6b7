//! An array that is taken over from its superblocks.

ghost use Rattle.std.specs.Prelude.{◌≡◌, ◌<◌, ℕ, [], false, None, IfOk, IfErr};
ghost use Rattle.array_type.specs.raid_types_Shapes.{has_slot};
ghost use Rattle.array_type.specs.array_call_specs_Kept.{scope_in};
ghost use Rattle.array_type.specs.array_call_specs_Adopting.{IsAdoptable, IsAdopted};
ghost use Rattle.array_type.specs.reshape_request_Left.{phases_of};
ghost use Rattle.array_type.specs.sb_specs_Reading.{is_reshaping};

use array_type::{
    Array, Bank, Course, Epoch, Members, NoMemory, PhasesLeft, Room, Window, append_absent,
    found_work, room_for, shape_in,
};
use std::alloc::Global;

/// What an opening found: the backup slot, the members, and a bit for each slot that was looked at.
#[derive(Drop)]
pub struct Opened {
    pub backup: Option<u32>,
    pub members: Members,
    pub given: u32,
}

/// Takes an array over whose superblocks were found in the slots of the bank; its first entries tell the roles that aren't
/// whole, and it has neither a plan nor a limit. It makes no device call. Refused only for want of memory, with the bank handed back.
pub fn adopt<B: Bank>(alloc: Global, bank: B, opened: Opened) -> Result<Array<B>, (B, NoMemory)>
    requires adoptable { IsAdoptable B.tells (B.given bank) (B.tape bank) (scope_in (B.given bank) opened.members.newest.set_uuid opened.given opened.backup) opened.members }
    requires failed { (slot : ℕ) → slot < (B.given bank).slots → has_slot opened.given slot ≡ false → 0 < B.faults_of bank slot }
    ensures adopted { IfOk result (λ made. IsAdopted B.tells bank (B.tape bank) opened.given opened.backup opened.members made.parts) }
    ensures still { IfOk result (λ made. is_reshaping made.parts.members.newest ≡ false) }
    ensures planless { IfOk result (λ made. phases_of made.ahead ≡ []) }
    ensures unlimited { IfOk result (λ made. made.limit ≡ None) }
    ensures handed_back { IfErr result (λ e. e.0 ≡ bank) }
{
    let far = match room_for(alloc) {
        Ok(far) => far,
        Err(none) => return Err((bank, none)),
    };
    let room = match room_for(alloc) {
        Ok(room) => room,
        Err(none) => return Err((bank, none)),
    };
    let Room {
        entries: _,
        rows: far_rows,
        buffer: far_buffer,
    } = far;
    let first = bank.ops();
    let Opened {
        backup,
        members,
        given,
    } = opened;
    let mut epoch = Epoch {
        uuid: members.newest.set_uuid,
        given,
        first,
        last: first,
        entries: room.entries,
    };
    let disks = shape_in(&members).disks;
    append_absent(&mut epoch, &members, first, disks);
    let work = found_work(&members);
    Ok(Array {
        alloc,
        bank,
        epoch,
        backup,
        members,
        work,
        course: Course {
            window: Window::Closed,
            zeroed: 0,
        },
        ahead: PhasesLeft {
            next: None,
            last: None,
        },
        limit: None,
        steps: 0,
        rows: room.rows,
        buffer: room.buffer,
        far_rows,
        far_buffer,
        window: Vec::new(alloc),
    })
}
