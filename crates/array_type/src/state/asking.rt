//! What an array tells of itself.

ghost use Rattle.std.specs.Prelude.{◌≡◌, ◌^◌, ◌<◌, ◌≤◌, true, false, length, IfSome, Some};
ghost use Rattle.sb_election.specs.sb_specs_Reading.{is_reshaping, shape_of, list_length};
ghost use Rattle.array_parts.specs.history_Flat.{next_number, length_of, limit_of};
ghost use Rattle.array_parts.specs.history_Legal.{told_left};
ghost use Rattle.array_parts.specs.array_members_Status.{stripes_of, rebuilt_of};
ghost use Rattle.array_reshaping_laws.specs.array_specs_Parts.{visible_in};
ghost use Rattle.array_type.specs.One.{running_left};

use crate::state::Array;
use crate::state::left::{left_at_rest, left_in_reshape};
use array_parts::Epoch;
use array_reshaping_laws::{Course, list_sectors, shape_in, visible_of};
use array_state::stripes;
use sb_election::{Bank, Members, is_reshaping};

impl<B: Bank> Array<B> {
    /// Whether a reshape is active in it.
    pub fn is_reshaping(&self) -> bool
        ensures { result ≡ is_reshaping self.now.parts.members.newest }
    {
        is_reshaping(&self.members.newest)
    }

    /// The number that the caller's next call bears.
    pub fn next_number(&self, caller: u32) -> u64
        ensures { result ≡ next_number caller self.now.parts.entries }
    {
        self.epoch.entries.next_number(caller)
    }

    /// How many operations the bank has made. It takes no memory and makes no device call.
    pub fn ops(&self) -> u64
        ensures { B.tells → result ≡ length (B.tape self.now.parts.bank) }
    {
        self.bank.ops()
    }

    /// How many slots the bank has.
    pub fn slots(&self) -> u32
        ensures { result ≡ (B.given self.now.parts.bank).slots }
    {
        self.bank.slots()
    }

    /// What happened so far.
    pub fn epoch(&self) -> &Epoch
        ensures entries { result.now.entries.items ≡ self.now.parts.entries }
        ensures uuid { result.now.uuid ≡ self.now.parts.uuid }
        ensures given { result.now.given ≡ self.now.parts.given }
        ensures first { result.now.first ≡ self.now.parts.first }
        ensures last { result.now.last ≡ self.now.parts.last }
    {
        &self.epoch
    }

    /// What is known of the superblocks.
    pub fn members(&self) -> &Members
        ensures { result.now ≡ self.now.parts.members }
    {
        &self.members
    }

    /// The slot of the backup, which an array in a reshape has.
    pub fn backup_slot(&self) -> u32
        requires active { is_reshaping self.now.parts.members.newest ≡ true }
        ensures { self.now.parts.backup ≡ Some result }
    {
        let Some(slot) = self.backup else {
            unreachable!()
        };
        slot
    }

    /// How far the reshape has come.
    pub fn course(&self) -> Course
        ensures { result ≡ self.now.course }
    {
        self.course
    }

    /// How many stripes the pending resync has mended; None where none is pending.
    pub fn resync(&self) -> Option<u64>
        ensures resync { result ≡ self.now.parts.work.resync }
        ensures progress { is_reshaping self.now.parts.members.newest ≡ false → IfSome result (λ mended. mended ≤ stripes_of self.now.parts.members) }
    {
        self.work.resync
    }

    /// How many stripes of a role are rebuilt on the slot that recovers it.
    pub fn rebuilt(&self, role: u32) -> u64
        requires { role < 16 }
        ensures { result ≡ rebuilt_of self.now.parts.work role }
    {
        self.work.rebuilt[role as usize]
    }

    /// How many background steps are left, those of the phases of a plan among them; as many as the history tells, where it tells them and
    /// no loss or new spare since.
    pub fn left(&self) -> u64
        ensures exact { result ≡ running_left self.now }
        ensures told { IfSome (told_left self.now.parts.entries) (λ n. n ≡ running_left self.now) }
    {
        if is_reshaping(&self.members.newest) {
            return left_in_reshape(&self.members, &self.work, &self.course, &self.ahead);
        }
        left_at_rest(&self.members, &self.work, &self.ahead)
    }

    /// How many disks there are without an active reshape, and so how many roles.
    pub fn disks(&self) -> u32
        requires still { is_reshaping self.now.parts.members.newest ≡ false }
        ensures disks { result ≡ (shape_of self.now.parts.members.newest).disks }
        ensures roles { length self.now.parts.members.roles ≡ result }
        ensures few { result ≤ 16 }
    {
        shape_in(&self.members).disks
    }

    /// How many stripes there are by the old shape.
    pub fn stripes(&self) -> u64
        ensures { result ≡ stripes_of self.now.parts.members }
    {
        stripes(&self.members)
    }

    /// How many sectors the list has.
    pub fn length(&self) -> u64
        ensures length { result ≡ list_length self.now.parts.members.newest }
        ensures few { result < 2 ^ 63 }
    {
        list_sectors(&self.members)
    }

    /// The limit of the visible size in sectors, if there is one.
    pub fn limit(&self) -> Option<u64>
        ensures { result ≡ self.now.limit }
    {
        self.limit
    }

    /// How many sectors of the list can be read and written: those below the limit, if there is one.
    pub fn visible(&self) -> u64
        ensures visible { result ≡ visible_in self.now }
        ensures few { result < 2 ^ 63 }
        ensures limited { limit_of self.now.parts.entries ≡ self.now.limit }
        ensures sized { length_of (list_length self.now.parts.members.newest) self.now.parts.entries ≡ list_length self.now.parts.members.newest }
    {
        visible_of(self.length(), self.limit)
    }
}
