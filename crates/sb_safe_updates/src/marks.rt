//! The clean mark of the superblocks.

ghost use Rattle.std.specs.Prelude.{◌≡◌, ◌+◌, ◌-◌, ◌^◌, ◌&&◌, ℕ, min, not};
ghost use Rattle.sb_update.specs.bank_Given.{NeverFalls};
ghost use Rattle.sb_update.specs.bank_Tape.{disk};
ghost use Rattle.raid_layout.specs.raid_types_Shapes.{has_slot};
ghost use Rattle.sb_update.specs.sb_specs_Reading.{is_clean};
ghost use Rattle.sb_update.specs.sb_specs_Outcome.{live_set};
ghost use Rattle.sb_update.specs.sb_specs_Updating.{ArePlanned, AreLosses};
ghost use Rattle.array_members.specs.Placed.{IsPlaced, AreLess};
ghost use Rattle.array_members.specs.crash_safety_laws_Steady.{AreUnlost};
ghost use Rattle.array_members.specs.crash_safety_laws_Marking.{marking};
ghost use Rattle.array_members.specs.crash_safety_laws_Changing.{IsChanged};

use sb_update::{Bank, Change, Give, Lostness, Members, Sb, update};

// The update that marks an array clean or dirty.
fn marking(members: &Members, clean: bool) -> Change
    ensures { result ≡ marking members.now clean }
{
    let resync_offset = if clean { u64::MAX } else { 0 };
    Change {
        shared: Sb {
            resync_offset,
            ..members.newest
        },
        gives: [Give::Same; 32],
        added: None,
    }
}

/// Marks the array clean, or dirty, in the superblocks of all live slots; answers the slots that were lost in this.
pub fn set_clean_mark<B: Bank>(members: &mut Members, bank: &mut B, clean: bool) -> Lostness
    requires placed { IsPlaced (B.given bank.old) members.old }
    requires unlost { AreUnlost members.old }
    ensures marked { IsChanged B.tells (B.given bank.old) (marking members.old clean) members.old members.new (B.tape bank.old) (B.tape bank.new) }
    ensures planned { B.tells → ArePlanned members.new.newest (marking members.old clean).gives members.old.own (live_set members.old (marking members.old clean)) members.new.lost (disk (B.given bank.old).start (B.tape bank.new)) }
    ensures events { members.new.lost ≡ members.old.lost → members.new.newest.events ≡ min (members.old.newest.events + 1) (2 ^ 64 - 1) }
    ensures clean { is_clean members.new.newest ≡ clean }
    ensures less { AreLess members.new.lost members.old members.new }
    ensures placed { IsPlaced (B.given bank.new) members.new }
    ensures unlost { AreUnlost members.new }
    ensures result { (s : ℕ) → has_slot result s ≡ (has_slot members.new.lost s && not (has_slot members.old.lost s)) }
    ensures losses { AreLosses (live_set members.old (marking members.old clean)) members.old.lost members.new.lost (B.faults_of bank.old) (B.faults_of bank.new) }
    ensures counts { NeverFalls (B.faults_of bank.old) (B.faults_of bank.new) }
    ensures given { B.given bank.new ≡ B.given bank.old }
{
    let change = marking(members, clean);
    update(members, bank, &change)
}
