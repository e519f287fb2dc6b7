//! The one way in which the stored superblocks change.

ghost use Rattle.std.specs.Prelude.{◌≡◌, ◌≢◌, ◌⊎◌, [], ◌∷◌, List, ◌<◌, ◌≤◌, ◌+◌, ◌-◌, ◌^◌, ℕ, Some, true, false, min, length, replicate};
ghost use Rattle.bank.specs.Given.{NeverFalls};
ghost use Rattle.bank.specs.Tape.{disk};
ghost use Rattle.sb_specs.specs.Update.{IsRoleGive, give_of, with_roles, with_shared, is_behind, is_recovery, own_in};
ghost use Rattle.sb_specs.specs.Writing.{AreMembers, IsPlanned, plan_of};
ghost use Rattle.sb_specs.specs.Updating.{IsUpdate, AreLosses, IsLater, IsRecorded, ArePlanned, AreNamed, IsInOrder, AreOthersKept, AreRecoveriesKept, AreRecoveriesWritten, planned_newest, IsSomeLeft, IsWrittenBy, RisesByOperations};
ghost use Rattle.sb_specs.specs.Order.{IsRecoveryFirst};
ghost use Rattle.sb_specs.specs.Stages.{AreLeft, AreFirstKept, IsLevelled, IsInUpdate, IsStaged};
ghost use Rattle.sb_specs.specs.Rounds.{round_at, AreStill, IsInNamingUpTo, IsInRounds, ArePast};
ghost use Rattle.sb_specs.specs.Losing.{AreTakenInTurn, IsPastTurns, IsInTurns, IsNamedSince, ArePastTurns};
ghost use Rattle.bank.specs.Tape.{EachMark};
ghost use Rattle.sb_specs.specs.raid_types_Shapes.{has_slot};
ghost use Rattle.sb_specs.specs.declared.change.Give.TheVariants.{Same};

use crate::pass::write_slots;
use crate::plan::with_shared;
use bank::Bank;
use sb_specs::roles::enter_roles;
use sb_specs::sets::without;
use sb_specs::{Change, Give, Members, Part, Sb};

// Brings each live slot whose event count is behind to the newest's.
fn catch_up<B: Bank>(bank: &mut B, members: &mut Members, live: u32)
    requires members { AreMembers (B.given bank.old) members.old.own live }
    ensures update { IsUpdate B.tells live members.old.lost members.new.lost (IsRecorded members.old.newest (replicate 32 Same) members.old.own)
        (B.given bank.old).start (B.tape bank.old) (B.tape bank.new) }
    ensures exact { IsUpdate B.tells live members.old.lost members.new.lost (plan_of members.old.newest (replicate 32 Same) members.old.own)
        (B.given bank.old).start (B.tape bank.old) (B.tape bank.new) }
    ensures level { B.tells → let start = (B.given bank.old).start in (s : ℕ) → has_slot live s ≡ true → has_slot members.new.lost s ≡ false →
        IsLevelled members.old.newest (own_in members.old.own s) (disk start (B.tape bank.old) s 8) (disk start (B.tape bank.new) s 8) }
    ensures still { let start = (B.given bank.old).start in EachMark B.tells start (B.tape bank.old) (B.tape bank.new)
        (AreStill members.old.newest members.old.own (disk start (B.tape bank.old))) }
    ensures who { (s : ℕ) → has_slot members.new.lost s ≡ true → has_slot members.old.lost s ≡ false → is_behind members.old.newest (own_in members.old.own s) ≡ true }
    ensures members { members.new ≡ record members.old { lost = members.new.lost } }
    ensures losses { AreLosses live members.old.lost members.new.lost (B.faults_of bank.old) (B.faults_of bank.new) }
    ensures counts { NeverFalls (B.faults_of bank.old) (B.faults_of bank.new) }
    ensures given { B.given bank.new ≡ B.given bank.old }
{
    write_slots(bank, members, &[Give::Same; 32], live, Part::Behind);
}

// The newest superblock with the change's fields and one event more.
fn planned_newest(shared: &Sb, former: &Sb) -> Sb
    ensures { result ≡ planned_newest shared.now former.now }
{
    Sb {
        events: former.events.saturating_add(1),
        ..with_shared(shared, former)
    }
}

// The newest superblock as planned.
fn plan_newest(members: &mut Members, change: &Change, before: u32)
    requires roles { length members.old.roles ≤ 16 }
    requires gives { (s : ℕ) → s < 32 → IsRoleGive (give_of change.now.gives s) }
    ensures { members.new ≡ record members.old {
      newest = record (planned_newest change.now.shared members.old.newest) {
        dev_roles = with_roles members.old change.now before members.old.lost members.old.newest.dev_roles;
      };
    } }
{
    members.newest = planned_newest(&change.shared, &members.newest);
    enter_roles(members, change, before);
}

// Writes the slots that get a role with a recovery offset.
fn write_recoveries<B: Bank>(bank: &mut B, members: &mut Members, gives: &[Give; 32], live: u32)
    requires members { AreMembers (B.given bank.old) members.old.own live }
    ensures update { IsUpdate B.tells live members.old.lost members.new.lost (IsRecorded members.old.newest gives.now members.old.own)
        (B.given bank.old).start (B.tape bank.old) (B.tape bank.new) }
    ensures first { let start = (B.given bank.old).start in EachMark B.tells start (B.tape bank.old) (B.tape bank.new)
        (AreOthersKept gives.now (disk start (B.tape bank.old))) }
    ensures written { B.tells → (s : ℕ) → has_slot live s ≡ true → has_slot members.new.lost s ≡ false → is_recovery (give_of gives.now s) ≡ true →
        (v : List ℕ) × IsPlanned members.old.newest (give_of gives.now s) (own_in members.old.own s) v × (disk (B.given bank.old).start (B.tape bank.new) s 8 ≡ v ∷ []) }
    ensures members { members.new ≡ record members.old { lost = members.new.lost } }
    ensures losses { AreLosses live members.old.lost members.new.lost (B.faults_of bank.old) (B.faults_of bank.new) }
    ensures counts { NeverFalls (B.faults_of bank.old) (B.faults_of bank.new) }
    ensures given { B.given bank.new ≡ B.given bank.old }
    ensures exact { IsUpdate B.tells live members.old.lost members.new.lost (plan_of members.old.newest gives.now members.old.own)
        (B.given bank.old).start (B.tape bank.old) (B.tape bank.new) }
    ensures who { (s : ℕ) → has_slot members.new.lost s ≡ true → has_slot members.old.lost s ≡ false → is_recovery (give_of gives.now s) ≡ true }
    ensures grows { B.tells → (s : ℕ) → has_slot live s ≡ true → has_slot members.new.lost s ≡ false → is_recovery (give_of gives.now s) ≡ true →
        length (B.tape bank.old) + 2 ≤ length (B.tape bank.new) }
{
    write_slots(bank, members, gives, live, Part::Recoveries);
}

// Where a slot was lost since this set of lost slots, it is faulty in what the others get.
fn name_recoveries(members: &mut Members, change: &Change, before: u32, lost: u32)
    requires roles { length members.old.roles ≤ 16 }
    requires gives { (s : ℕ) → s < 32 → IsRoleGive (give_of change.now.gives s) }
    ensures kept { members.old.lost ≡ lost → members.new ≡ members.old }
    ensures newest { IsLater members.old.newest members.new.newest }
    ensures events { members.new.newest.events ≡ members.old.newest.events }
    ensures named { members.old.lost ≢ lost → members.new.newest ≡ record members.old.newest {
      dev_roles = with_roles members.old change.now before members.old.lost members.old.newest.dev_roles;
    } }
    ensures members { members.new ≡ record members.old { newest = members.new.newest } }
{
    if members.lost != lost {
        enter_roles(members, change, before);
    }
}

// Writes the slots that get no recovery offset.
fn write_others<B: Bank>(bank: &mut B, members: &mut Members, gives: &[Give; 32], live: u32)
    requires members { AreMembers (B.given bank.old) members.old.own live }
    ensures update { IsUpdate B.tells live members.old.lost members.new.lost (IsRecorded members.old.newest gives.now members.old.own)
        (B.given bank.old).start (B.tape bank.old) (B.tape bank.new) }
    ensures then { let start = (B.given bank.old).start in EachMark B.tells start (B.tape bank.old) (B.tape bank.new)
        (AreRecoveriesKept gives.now (disk start (B.tape bank.old))) }
    ensures written { B.tells → (s : ℕ) → has_slot live s ≡ true → has_slot members.new.lost s ≡ false → is_recovery (give_of gives.now s) ≡ false →
        (v : List ℕ) × IsPlanned members.old.newest (give_of gives.now s) (own_in members.old.own s) v × (disk (B.given bank.old).start (B.tape bank.new) s 8 ≡ v ∷ []) }
    ensures members { members.new ≡ record members.old { lost = members.new.lost } }
    ensures losses { AreLosses live members.old.lost members.new.lost (B.faults_of bank.old) (B.faults_of bank.new) }
    ensures counts { NeverFalls (B.faults_of bank.old) (B.faults_of bank.new) }
    ensures given { B.given bank.new ≡ B.given bank.old }
    ensures exact { IsUpdate B.tells live members.old.lost members.new.lost (plan_of members.old.newest gives.now members.old.own)
        (B.given bank.old).start (B.tape bank.old) (B.tape bank.new) }
    ensures grows { B.tells → (s : ℕ) → has_slot live s ≡ true → has_slot members.new.lost s ≡ false → is_recovery (give_of gives.now s) ≡ false →
        length (B.tape bank.old) + 2 ≤ length (B.tape bank.new) }
{
    write_slots(bank, members, gives, live, Part::Others);
}

// Writes the planned superblocks: first those with a recovery offset, then the others in slot order.
fn write_planned<B: Bank>(
    bank: &mut B,
    members: &mut Members,
    change: &Change,
    live: u32,
    before: u32,
)
    requires members { AreMembers (B.given bank.old) members.old.own live }
    requires roles { length members.old.roles ≤ 16 }
    requires gives { (s : ℕ) → s < 32 → IsRoleGive (give_of change.now.gives s) }
    ensures update { IsUpdate B.tells live members.old.lost members.new.lost (IsRecorded members.old.newest change.now.gives members.old.own)
        (B.given bank.old).start (B.tape bank.old) (B.tape bank.new) }
    ensures order { let start = (B.given bank.old).start in EachMark B.tells start (B.tape bank.old) (B.tape bank.new)
        (IsInOrder members.old.newest change.now.gives members.old.own live members.new.lost (disk start (B.tape bank.old))) }
    ensures recoveries { B.tells →
        AreRecoveriesWritten members.old.newest change.now.gives members.old.own live members.new.lost (disk (B.given bank.old).start (B.tape bank.new)) }
    ensures planned { members.new.lost ≡ members.old.lost → B.tells →
        ArePlanned members.new.newest change.now.gives members.old.own live members.new.lost (disk (B.given bank.old).start (B.tape bank.new)) }
    ensures kept { members.new.lost ≡ members.old.lost → members.new ≡ members.old }
    ensures newest { IsLater members.old.newest members.new.newest }
    ensures members { members.new ≡ record members.old { newest = members.new.newest; lost = members.new.lost } }
    ensures losses { AreLosses live members.old.lost members.new.lost (B.faults_of bank.old) (B.faults_of bank.new) }
    ensures counts { NeverFalls (B.faults_of bank.old) (B.faults_of bank.new) }
    ensures given { B.given bank.new ≡ B.given bank.old }
    ensures exact { AreFirstKept change.now.gives members.old.lost members.new.lost →
        IsUpdate B.tells live members.old.lost members.new.lost (plan_of members.old.newest change.now.gives members.old.own)
        (B.given bank.old).start (B.tape bank.old) (B.tape bank.new) }
    ensures taken { AreFirstKept change.now.gives members.old.lost members.new.lost → B.tells →
        ArePlanned members.old.newest change.now.gives members.old.own live members.new.lost (disk (B.given bank.old).start (B.tape bank.new)) }
    ensures unnamed { AreFirstKept change.now.gives members.old.lost members.new.lost → members.new.newest ≡ members.old.newest }
    ensures turns { let start = (B.given bank.old).start in EachMark B.tells start (B.tape bank.old) (B.tape bank.new)
        (AreTakenInTurn members.old change.now before live members.new.lost (disk start (B.tape bank.old))) }
    ensures over { B.tells → let start = (B.given bank.old).start in IsPastTurns members.old change.now before live (disk start (B.tape bank.old))
        (round_at members.new.newest members.new.lost start (B.tape bank.new)) }
    ensures grows { B.tells → IsSomeLeft live members.new.lost → length (B.tape bank.old) + 2 ≤ length (B.tape bank.new) }
{
    let lost = members.lost;
    write_recoveries(bank, members, &change.gives, live);
    name_recoveries(members, change, before, lost);
    write_others(bank, members, &change.gives, live);
}

// Writes all live slots once more, which names those that were lost.
fn write_again<B: Bank>(
    bank: &mut B,
    members: &mut Members,
    change: &Change,
    live: u32,
    before: u32,
)
    requires members { AreMembers (B.given bank.old) members.old.own live }
    requires roles { length members.old.roles ≤ 16 }
    requires gives { (s : ℕ) → s < 32 → IsRoleGive (give_of change.now.gives s) }
    ensures update { IsUpdate B.tells live members.old.lost members.new.lost (IsRecorded members.old.newest change.now.gives members.old.own)
        (B.given bank.old).start (B.tape bank.old) (B.tape bank.new) }
    ensures planned { B.tells → ArePlanned members.new.newest change.now.gives members.old.own live members.new.lost (disk (B.given bank.old).start (B.tape bank.new)) }
    ensures named { AreNamed members.old change.now before members.old.lost members.new.newest }
    ensures newest { IsLater members.old.newest members.new.newest }
    ensures members { members.new ≡ record members.old { newest = members.new.newest; lost = members.new.lost } }
    ensures losses { AreLosses live members.old.lost members.new.lost (B.faults_of bank.old) (B.faults_of bank.new) }
    ensures counts { NeverFalls (B.faults_of bank.old) (B.faults_of bank.new) }
    ensures given { B.given bank.new ≡ B.given bank.old }
    ensures exact { IsUpdate B.tells live members.old.lost members.new.lost (plan_of members.new.newest change.now.gives members.old.own)
        (B.given bank.old).start (B.tape bank.old) (B.tape bank.new) }
    ensures next { members.new.newest ≡ record members.old.newest {
      events = min (members.old.newest.events + 1) (2 ^ 64 - 1);
      dev_roles = with_roles members.old change.now before members.old.lost members.old.newest.dev_roles;
    } }
    ensures grows { B.tells → IsSomeLeft live members.new.lost → length (B.tape bank.old) + 2 ≤ length (B.tape bank.new) }
{
    members.newest.events = members.newest.events.saturating_add(1);
    enter_roles(members, change, before);
    write_slots(bank, members, &change.gives, live, Part::All);
}

// Writes again until each lost slot is named, or no slot is left. Those of this set are named already.
fn name_lost<B: Bank>(
    bank: &mut B,
    members: &mut Members,
    change: &Change,
    live: u32,
    before: u32,
    lost: u32,
)
    requires members { AreMembers (B.given bank.old) members.old.own live }
    requires roles { length members.old.roles ≤ 16 }
    requires gives { (s : ℕ) → s < 32 → IsRoleGive (give_of change.now.gives s) }
    requires known { (s : ℕ) → has_slot lost s ≡ true → has_slot members.old.lost s ≡ true }
    requires since { (s : ℕ) → has_slot members.old.lost s ≡ true → has_slot lost s ≡ false → has_slot live s ≡ true }
    requires planned { members.old.lost ≡ lost → B.tells →
        ArePlanned members.old.newest change.now.gives members.old.own live members.old.lost (disk (B.given bank.old).start (B.tape bank.old)) }
    requires named { members.old.lost ≡ lost → AreNamed members.old change.now before members.old.lost members.old.newest }
    ensures update { IsUpdate B.tells live members.old.lost members.new.lost (IsRecorded members.old.newest change.now.gives members.old.own)
        (B.given bank.old).start (B.tape bank.old) (B.tape bank.new) }
    ensures planned { B.tells →
        ArePlanned members.new.newest change.now.gives members.old.own live members.new.lost (disk (B.given bank.old).start (B.tape bank.new)) }
    ensures named { IsSomeLeft live members.new.lost → AreNamed members.old change.now before members.new.lost members.new.newest }
    ensures kept { members.old.lost ≡ lost → members.new ≡ members.old }
    ensures newest { IsLater members.old.newest members.new.newest }
    ensures members { members.new ≡ record members.old { newest = members.new.newest; lost = members.new.lost } }
    ensures losses { AreLosses live members.old.lost members.new.lost (B.faults_of bank.old) (B.faults_of bank.new) }
    ensures counts { NeverFalls (B.faults_of bank.old) (B.faults_of bank.new) }
    ensures given { B.given bank.new ≡ B.given bank.old }
    ensures idle { members.old.lost ≡ lost → B.tape bank.new ≡ B.tape bank.old }
    ensures rounds { let start = (B.given bank.old).start in B.tells → IsNamedSince members.old change.now before live lost
        (round_at members.old.newest members.old.lost start (B.tape bank.old)) (round_at members.new.newest members.new.lost start (B.tape bank.new)) }
    ensures naming { let start = (B.given bank.old).start in EachMark B.tells start (B.tape bank.old) (B.tape bank.new)
        (IsInNamingUpTo members.old change.now before live members.new.lost members.new.newest.events (round_at members.old.newest members.old.lost start (B.tape bank.old))) }
    ensures rise { B.tells → (members.new.newest.events + length (B.tape bank.old) ≤ members.old.newest.events + length (B.tape bank.new) + 1)
        × ((members.new.newest.events ≡ members.old.newest.events) ⊎ IsSomeLeft live members.old.lost) }
{
    let mut named = lost;
    while members.lost != named && without(live, members.lost) != 0 {
        named = members.lost;
        write_again(bank, members, change, live, before);
    }
}

/// Writes an update of the superblocks to the live slots, those of this set that weren't lost: brings those that are
/// behind to the newest event count, writes what the change plans, and names the slots that are lost in this, for as
/// long as a slot is left. Those of `before` were lost before. It takes no memory.
pub fn write_update<B: Bank>(
    bank: &mut B,
    members: &mut Members,
    change: &Change,
    live: u32,
    before: u32,
)
    requires members { AreMembers (B.given bank.old) members.old.own live }
    requires roles { length members.old.roles ≤ 16 }
    requires gives { (s : ℕ) → s < 32 → IsRoleGive (give_of change.now.gives s) }
    ensures update { IsUpdate B.tells live members.old.lost members.new.lost
        (IsWrittenBy members.old.newest change.now members.old.own) (B.given bank.old).start (B.tape bank.old) (B.tape bank.new) }
    ensures order { let start = (B.given bank.old).start in EachMark B.tells start (B.tape bank.old) (B.tape bank.new)
        (IsRecoveryFirst members.old.newest change.now members.old.own live members.new.lost (disk start (B.tape bank.old))) }
    ensures planned { B.tells →
        ArePlanned members.new.newest change.now.gives members.old.own live members.new.lost (disk (B.given bank.old).start (B.tape bank.new)) }
    ensures named { IsSomeLeft live members.new.lost → AreNamed members.old change.now before members.new.lost members.new.newest }
    ensures events { members.new.lost ≡ members.old.lost → members.new.newest.events ≡ min (members.old.newest.events + 1) (2 ^ 64 - 1) }
    ensures newest { IsLater (planned_newest change.now.shared members.old.newest) members.new.newest }
    ensures members { members.new ≡ record members.old { newest = members.new.newest; lost = members.new.lost } }
    ensures losses { AreLosses live members.old.lost members.new.lost (B.faults_of bank.old) (B.faults_of bank.new) }
    ensures counts { NeverFalls (B.faults_of bank.old) (B.faults_of bank.new) }
    ensures given { B.given bank.new ≡ B.given bank.old }
    ensures plan { members.new.lost ≡ members.old.lost → members.new.newest ≡ record (planned_newest change.now.shared members.old.newest) {
      dev_roles = with_roles members.old change.now before members.old.lost members.old.newest.dev_roles;
    } }
    ensures stages { (left : ℕ) → AreLeft live members.old.lost left → members.new.lost ≡ members.old.lost → let start = (B.given bank.old).start in
        EachMark B.tells start (B.tape bank.old) (B.tape bank.new)
        (IsInUpdate members.old.newest members.new.newest change.now.gives members.old.own left (disk start (B.tape bank.old))) }
    ensures whole { (left : ℕ) → AreLeft live members.old.lost left → members.new.lost ≡ members.old.lost → B.tells → let start = (B.given bank.old).start in
        IsStaged members.old.newest members.new.newest change.now.gives members.old.own left (disk start (B.tape bank.old)) (disk start (B.tape bank.new)) }
    ensures rounds { AreFirstKept change.now.gives members.old.lost members.new.lost → let start = (B.given bank.old).start in
        EachMark B.tells start (B.tape bank.old) (B.tape bank.new)
        (IsInRounds members.old change.now before live members.new.lost members.new.newest.events (disk start (B.tape bank.old))) }
    ensures past { AreFirstKept change.now.gives members.old.lost members.new.lost → B.tells → let start = (B.given bank.old).start in
        ArePast members.old change.now before live (disk start (B.tape bank.old)) (round_at members.new.newest members.new.lost start (B.tape bank.new)) }
    ensures turns { let start = (B.given bank.old).start in EachMark B.tells start (B.tape bank.old) (B.tape bank.new)
        (IsInTurns members.old change.now before live members.new.lost members.new.newest.events (disk start (B.tape bank.old))) }
    ensures turned { B.tells → let start = (B.given bank.old).start in
        ArePastTurns members.old change.now before live (disk start (B.tape bank.old)) (round_at members.new.newest members.new.lost start (B.tape bank.new)) }
    ensures rise { RisesByOperations B.tells live members.new.lost members.old.newest.events members.new.newest.events (B.tape bank.old) (B.tape bank.new) }
{
    catch_up(bank, members, live);
    let lost = members.lost;
    plan_newest(members, change, before);
    write_planned(bank, members, change, live, before);
    name_lost(bank, members, change, live, before, lost);
}
