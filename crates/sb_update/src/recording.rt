//! An update of a running array's superblocks, and what it leaves of the members.

ghost use Rattle.std.specs.Prelude.{◌≡◌, ◌<◌, ◌≤◌, ◌+◌, ◌-◌, ◌^◌, ◌&&◌, ◌||◌, ℕ, true, false, not, min, length, IfSome};
ghost use Rattle.bank.specs.Given.{NeverFalls};
ghost use Rattle.bank.specs.Tape.{EachMark, disk};
ghost use Rattle.sb_specs.specs.raid_types_Shapes.{has_slot};
ghost use Rattle.sb_specs.specs.Reading.{role_count};
ghost use Rattle.sb_specs.specs.Update.{IsRoleGive, give_of, is_live, is_added};
ghost use Rattle.sb_specs.specs.Updating.{IsUpdate, AreLosses, IsLater, ArePlanned, AreNamed, planned_newest, IsSomeLeft, IsWrittenBy, RisesByOperations};
ghost use Rattle.sb_specs.specs.Order.{IsRecoveryFirst};
ghost use Rattle.sb_specs.specs.Plans.{next_newest};
ghost use Rattle.sb_specs.specs.Stages.{AreLeft, AreFirstKept, IsInUpdate, IsStaged};
ghost use Rattle.sb_specs.specs.Rounds.{round_at, IsInRounds, ArePast};
ghost use Rattle.sb_specs.specs.Losing.{IsInTurns, ArePastTurns};
ghost use Rattle.sb_specs.specs.Outcome.{with_added, live_set, is_in_update, IsAddable, AreLive, AreGivesOfLive, AreStored, AreHeld, is_left, planned_roles, planned_spares};

mod live;
mod own;
mod roles;
mod spares;

use crate::writing::write_update;
use bank::Bank;
use live::{live_slots, take_added};
use own::keep_own;
use roles::keep_roles;
use sb_specs::sets::without;
use sb_specs::{Change, Lostness, Members};
use spares::keep_spares;

/// Records a change in the stored superblocks of the live slots, which hold a role, are spares or are made one, and in
/// the members. First the slots that are behind come to the newest event count. Then the event count rises by one, and
/// the slots that get a role with a recovery offset are written before the others; each write is flushed. A slot that
/// fails is lost, and the slots that are left name it faulty. It answers the slots that were lost in this call, one bit
/// for each; it can't be refused, and takes no memory.
pub fn update<B: Bank>(members: &mut Members, bank: &mut B, change: &Change) -> Lostness
    requires live { AreLive (B.given bank.old) members.old }
    requires added { IfSome change.now.added (IsAddable (B.given bank.old)) }
    requires roles { length members.old.roles ≤ 16 }
    requires count { role_count change.now.shared ≤ 16 }
    requires gives { (s : ℕ) → s < 32 → IsRoleGive (give_of change.now.gives s) }
    requires alone { AreGivesOfLive members.old change.now }
    ensures update { let old = with_added members.old change.now.added in IsUpdate B.tells (live_set members.old change.now) old.lost members.new.lost
        (IsWrittenBy old.newest change.now old.own) (B.given bank.old).start (B.tape bank.old) (B.tape bank.new) }
    ensures order { let old = with_added members.old change.now.added in let start = (B.given bank.old).start in EachMark B.tells start (B.tape bank.old) (B.tape bank.new)
        (IsRecoveryFirst old.newest change.now old.own (live_set members.old change.now) members.new.lost (disk start (B.tape bank.old))) }
    ensures planned { let old = with_added members.old change.now.added in B.tells →
        ArePlanned members.new.newest change.now.gives old.own (live_set members.old change.now) members.new.lost (disk (B.given bank.old).start (B.tape bank.new)) }
    ensures named { let old = with_added members.old change.now.added in IsSomeLeft (live_set members.old change.now) members.new.lost →
        AreNamed old change.now old.lost members.new.lost members.new.newest }
    ensures events { members.new.lost ≡ (with_added members.old change.now.added).lost → members.new.newest.events ≡ min (members.old.newest.events + 1) (2 ^ 64 - 1) }
    ensures newest { IsLater (planned_newest change.now.shared members.old.newest) members.new.newest }
    ensures plan { let old = with_added members.old change.now.added in
        members.new.lost ≡ old.lost → members.new.newest ≡ next_newest old change.now old.lost old.lost }
    ensures stages { let old = with_added members.old change.now.added in let start = (B.given bank.old).start in
        (left : ℕ) → AreLeft (live_set members.old change.now) old.lost left → members.new.lost ≡ old.lost → EachMark B.tells start (B.tape bank.old) (B.tape bank.new)
        (IsInUpdate old.newest members.new.newest change.now.gives old.own left (disk start (B.tape bank.old))) }
    ensures whole { let old = with_added members.old change.now.added in let start = (B.given bank.old).start in
        (left : ℕ) → AreLeft (live_set members.old change.now) old.lost left → members.new.lost ≡ old.lost → B.tells →
        IsStaged old.newest members.new.newest change.now.gives old.own left (disk start (B.tape bank.old)) (disk start (B.tape bank.new)) }
    ensures rounds { let old = with_added members.old change.now.added in let start = (B.given bank.old).start in
        AreFirstKept change.now.gives old.lost members.new.lost → EachMark B.tells start (B.tape bank.old) (B.tape bank.new)
        (IsInRounds old change.now old.lost (live_set members.old change.now) members.new.lost members.new.newest.events (disk start (B.tape bank.old))) }
    ensures past { let old = with_added members.old change.now.added in let start = (B.given bank.old).start in
        AreFirstKept change.now.gives old.lost members.new.lost → B.tells →
        ArePast old change.now old.lost (live_set members.old change.now) (disk start (B.tape bank.old))
        (round_at members.new.newest members.new.lost start (B.tape bank.new)) }
    ensures turns { let old = with_added members.old change.now.added in let start = (B.given bank.old).start in EachMark B.tells start (B.tape bank.old) (B.tape bank.new)
        (IsInTurns old change.now old.lost (live_set members.old change.now) members.new.lost members.new.newest.events (disk start (B.tape bank.old))) }
    ensures turned { B.tells → let old = with_added members.old change.now.added in let start = (B.given bank.old).start in
        ArePastTurns old change.now old.lost (live_set members.old change.now) (disk start (B.tape bank.old))
        (round_at members.new.newest members.new.lost start (B.tape bank.new)) }
    ensures rise { RisesByOperations B.tells (live_set members.old change.now) members.new.lost members.old.newest.events members.new.newest.events (B.tape bank.old) (B.tape bank.new) }
    ensures own { let old = with_added members.old change.now.added in
        AreStored members.new.newest change.now.gives (is_left (live_set members.old change.now) members.new.lost) old.own members.new.own }
    ensures held { B.tells →
        AreHeld (is_left (live_set members.old change.now) members.new.lost) members.new.own (disk (B.given bank.old).start (B.tape bank.new)) }
    ensures roles { members.new.roles ≡ planned_roles members.old change.now members.new.lost }
    ensures few { length members.new.roles ≤ 16 }
    ensures spares { members.new.spares ≡ planned_spares members.old change.now members.new.lost }
    ensures live { AreLive (B.given bank.new) members.new }
    ensures result { (s : ℕ) → has_slot result s ≡ (has_slot members.new.lost s && not (has_slot (with_added members.old change.now.added).lost s)) }
    ensures losses { AreLosses (live_set members.old change.now) (with_added members.old change.now.added).lost members.new.lost (B.faults_of bank.old) (B.faults_of bank.new) }
    ensures counts { NeverFalls (B.faults_of bank.old) (B.faults_of bank.new) }
    ensures given { B.given bank.new ≡ B.given bank.old }
{
    let live = live_slots(members, change);
    take_added(members, &change.added);
    let before = members.lost;
    write_update(bank, members, change, live, before);
    let left = without(live, members.lost);
    keep_own(&mut members.own, &members.newest, &change.gives, left);
    keep_roles(members, &change.gives);
    keep_spares(members, change);
    without(members.lost, before)
}
