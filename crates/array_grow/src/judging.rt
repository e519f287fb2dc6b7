//! Whether an array is planned to grow as it is wished.

ghost use Rattle.std.specs.Prelude.{◌≡◌, false, length, option_map, IsTrue};
ghost use Rattle.array_reply_specs.specs.bank_Given.{sizes};
ghost use Rattle.array_transition.specs.reshape_geometry_Geometry.{is_size};
ghost use Rattle.array_transition.specs.sb_specs_Reading.{is_reshaping, shape_of, list_length, role_count};
ghost use Rattle.array_transition.specs.sb_specs_Verdict.{AreValidShapes};
ghost use Rattle.array_reply_specs.specs.history_Flat.{visible_of};
ghost use Rattle.array_transition.specs.reshape_request_Asked.{asked_of, grow_refusal};
ghost use Rattle.array_transition.specs.reshape_request_Left.{phases_of};
ghost use Rattle.array_transition.specs.array_specs_Parts.{visible_in};
ghost use Rattle.array_grow.specs.Planned.{asked_in};

use array_reply_specs::{Bank, Refusal, Wish};
use array_transition::{Array, Members, PhasesLeft, judge_grow};

// How many sectors the backup slot has; none where the bank has no such slot.
fn backup_sectors<B: Bank>(bank: &B, backup: Option<u32>) -> Option<u64>
    ensures { result ≡ option_map (sizes (B.given bank.now)).sectors backup }
{
    match backup {
        None => None,
        Some(slot) => {
            if slot < bank.slots() {
                Some(bank.len(slot))
            } else {
                Some(0)
            }
        }
    }
}

// How many phases of a plan haven't begun.
fn phase_count(ahead: &PhasesLeft) -> u64
    ensures { result ≡ length (phases_of ahead.now) }
{
    match (ahead.next, ahead.last) {
        (None, None) => 0,
        (Some(_), None) | (None, Some(_)) => 1,
        (Some(_), Some(_)) => 2,
    }
}

// The first reason why it isn't planned, if there is one.
fn unplanned<B: Bank>(
    bank: &B,
    backup: Option<u32>,
    members: &Members,
    resync: Option<u64>,
    ahead: &PhasesLeft,
    visible: u64,
    wish: &Wish,
) -> Option<Refusal>
    requires still { is_reshaping members.now.newest ≡ false }
    requires shapes { AreValidShapes members.now.newest }
    requires size { IsTrue (is_size members.now.newest.size (shape_of members.now.newest).chunk) }
    requires roles { length members.now.roles ≡ role_count members.now.newest }
    ensures { result ≡ grow_refusal (asked_of members.now resync (length (phases_of ahead.now)) visible (option_map (sizes (B.given bank.now)).sectors backup)) wish.now }
{
    let phases = phase_count(ahead);
    let backed = backup_sectors(bank, backup);
    judge_grow(members, resync, phases, visible, backed, wish)
}

/// The first reason why an array isn't planned to grow so, if there is one; the array is as it was.
pub fn judge<B: Bank>(still: Array<B>, wish: &Wish) -> (Array<B>, Option<Refusal>)
    requires still { is_reshaping still.parts.members.newest ≡ false }
    ensures same { result.0 ≡ still }
    ensures first { result.1 ≡ grow_refusal (asked_in (B.given still.parts.bank) still) wish.now }
    ensures visible { visible_of (list_length still.parts.members.newest) still.parts.entries ≡ visible_in still }
    ensures still { is_reshaping result.0.parts.members.newest ≡ false }
{
    let visible = still.visible();
    let pieces = still.part_fixed();
    let resync = pieces.work.resync;
    let refusal = unplanned(
        &pieces.bank,
        pieces.backup,
        &pieces.members,
        resync,
        &pieces.ahead,
        visible,
        wish,
    );
    (Array::of_fixed(pieces), refusal)
}
