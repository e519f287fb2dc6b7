//! The position of a reshape moves past a window.

ghost use Rattle.std.specs.Prelude.{◌≡◌, ◌+◌, ◌-◌, ◌^◌, ◌≤◌, ◌&&◌, ◌==◌, ℕ, min, not, length};
ghost use Rattle.std.specs.Int.{bit_at};
ghost use Rattle.sb_update.specs.bank_Given.{NeverFalls};
ghost use Rattle.sb_update.specs.bank_Tape.{disk};
ghost use Rattle.sb_update.specs.raid_types_Shapes.{has_slot};
ghost use Rattle.sb_update.specs.sb_specs_Reading.{Scope, is_negative, is_zero, is_backward, role_count};
ghost use Rattle.sb_update.specs.sb_specs_Reads.{SaysSame};
ghost use Rattle.sb_update.specs.sb_specs_Outcome.{live_set, AreLive};
ghost use Rattle.sb_update.specs.sb_specs_Updating.{AreLosses};
ghost use Rattle.crash_reshape_laws.specs.history_World.{World};
ghost use Rattle.crash_reshape_laws.specs.history_Sound.{OpensFit};
ghost use Rattle.crash_reshape_laws.specs.crash_views_Regions.{ArePlaced};
ghost use Rattle.crash_reshape_laws.specs.crash_views_Views.{Ledger, IsViewRight};
ghost use Rattle.crash_reshape_laws.specs.crash_views_Windows.{moved_past};
ghost use Rattle.crash_reshape_laws.specs.crash_safety_laws_Safety.{HasRoomLeft, IsRisen};
ghost use Rattle.crash_reshape_laws.specs.crash_safety_laws_Steady.{IsSteady, IsSafeOver, KeepsSafe, AreGoneTold};
ghost use Rattle.crash_reshape_laws.specs.crash_safety_laws_Updates.{IsLessView};
ghost use Rattle.crash_reshape_laws.specs.crash_safety_laws_Changing.{IsChanged};
ghost use Rattle.crash_reshape_laws.specs.crash_safety_laws_Kinds.{recording};

use sb_update::{Bank, Change, Features, Give, Lostness, Members, Sb, Span, update};

fn is_negative(delta: i32) -> bool
    ensures { result ≡ is_negative delta }
{
    delta < 0
}

fn is_zero(delta: i32) -> bool
    ensures { result ≡ is_zero delta }
{
    delta == 0
}

fn has_backward_bit(map: u32) -> bool
    ensures { result ≡ (bit_at map 5 == 1) }
{
    map & Features::RESHAPE_BACKWARDS.0 != 0
}

// Whether the reshape goes backward: to fewer disks, or to as many where the feature map says so.
fn is_backward(sb: &Sb) -> bool
    ensures { result ≡ is_backward sb.now }
{
    is_negative(sb.delta_disks) || (is_zero(sb.delta_disks) && has_backward_bit(sb.feature_map))
}

// The update that records the position behind a window.
fn recording(members: &Members, span: &Span) -> Change
    ensures { result ≡ recording span.now members.now }
{
    let reshape_position = if is_backward(&members.newest) {
        span.lo
    } else {
        span.hi
    };
    Change {
        shared: Sb {
            reshape_position,
            ..members.newest
        },
        gives: [Give::Same; 32],
        added: None,
    }
}

/// Records the position behind a window in the superblocks of all live slots, and names the roles that no slot holds;
/// answers the slots that were lost in this.
pub fn record_position<B: Bank>(members: &mut Members, bank: &mut B, span: &Span) -> Lostness
    requires live { AreLive (B.given bank.old) members.old }
    requires roles { length members.old.roles ≡ role_count members.old.newest }
    requires few { length members.old.roles ≤ 16 }
    ensures recorded { IsChanged B.tells (B.given bank.old) (recording span.now members.old) members.old members.new (B.tape bank.old) (B.tape bank.new) }
    ensures newest { SaysSame (moved_past span.now members.old).newest members.new.newest }
    ensures events { members.new.lost ≡ members.old.lost → members.new.newest.events ≡ min (members.old.newest.events + 1) (2 ^ 64 - 1) }
    ensures less { IsLessView (moved_past span.now members.old) members.new }
    ensures placed { (scope : Scope) → ArePlaced scope (B.given bank.old) (moved_past span.now members.old) → ArePlaced scope (B.given bank.new) members.new }
    ensures rise { IsRisen B.tells members.old members.new (B.tape bank.old) (B.tape bank.new) }
    ensures result { (s : ℕ) → has_slot result s ≡ (has_slot members.new.lost s && not (has_slot members.old.lost s)) }
    ensures losses { AreLosses (live_set members.old (recording span.now members.old)) members.old.lost members.new.lost (B.faults_of bank.old) (B.faults_of bank.new) }
    ensures safe { B.tells → (world : World) → (told : Ledger) → HasRoomLeft members.old (B.tape bank.old) (B.tape bank.new) → AreGoneTold told members.new
        → ((steady : IsSteady (OpensFit world) world.scope (B.given bank.old) told members.old (disk (B.given bank.old).start (B.tape bank.old)))
        → IsViewRight (OpensFit world) world.scope (B.given bank.old) told (moved_past span.now steady.former) (disk (B.given bank.old).start (B.tape bank.old)))
        → IsSafeOver world (B.given bank.old) told members.old (B.tape bank.old) → KeepsSafe world (B.given bank.old) told members.new (B.tape bank.old) (B.tape bank.new) }
    ensures live { AreLive (B.given bank.new) members.new }
    ensures counts { NeverFalls (B.faults_of bank.old) (B.faults_of bank.new) }
    ensures given { B.given bank.new ≡ B.given bank.old }
{
    let change = recording(members, span);
    update(members, bank, &change)
}
