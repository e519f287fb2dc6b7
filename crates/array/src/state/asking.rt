//! What a running array tells of itself.

ghost use Rattle.std.specs.Prelude.{◌≡◌, length, IfSome};
ghost use Rattle.array_takeover.specs.sb_specs_Reading.{is_reshaping, list_length};
ghost use Rattle.array_takeover.specs.history_Flat.{next_number, length_of, limit_of};
ghost use Rattle.array_takeover.specs.history_Legal.{told_left};
ghost use Rattle.array_grow.specs.array_specs_Calls.{moving_world};
ghost use Rattle.array_grow.specs.array_specs_Parts.{visible_in};
ghost use Rattle.array_grow.specs.Stored.{IsStoredBy};
ghost use Rattle.array.specs.Calls.{running_left};

use crate::state::Running;
use array_grow::Bank;
use array_takeover::{Epoch, Members};

impl<B: Bank> Running<B> {
    /// Whether a reshape is active in it.
    pub fn is_moving(&self) -> bool
        ensures { result ≡ is_reshaping self.now.parts.members.newest }
    {
        self.array.is_reshaping()
    }

    /// The number that the caller's next call bears.
    pub fn next_number(&self, caller: u32) -> u64
        ensures { result ≡ next_number caller self.now.parts.entries }
    {
        self.array.next_number(caller)
    }

    /// How many operations the bank has made. It takes no memory and makes no device call.
    pub fn ops(&self) -> u64
        ensures { B.tells → result ≡ length (B.tape self.now.parts.bank) }
    {
        self.array.ops()
    }

    /// What happened so far.
    pub fn epoch(&self) -> &Epoch
        ensures entries { result.now.entries.items ≡ self.now.parts.entries }
        ensures uuid { result.now.uuid ≡ self.now.parts.uuid }
        ensures given { result.now.given ≡ self.now.parts.given }
        ensures first { result.now.first ≡ self.now.parts.first }
        ensures last { result.now.last ≡ self.now.parts.last }
    {
        self.array.epoch()
    }

    /// What is known of the superblocks.
    pub fn members(&self) -> &Members
        ensures { result.now ≡ self.now.parts.members }
    {
        self.array.members()
    }

    /// How many background steps are left, those of the phases of a plan among them; as many as the history tells, where it tells them and
    /// no loss or new spare since.
    pub fn left(&self) -> u64
        ensures exact { result ≡ running_left self.now }
        ensures told { IfSome (told_left self.now.parts.entries) (λ n. n ≡ running_left self.now) }
    {
        self.array.left()
    }

    /// How many sectors the list has.
    pub fn length(&self) -> u64
        ensures { result ≡ list_length self.now.parts.members.newest }
    {
        self.array.length()
    }

    /// How many sectors of it can be read and written: those below the limit, if there is one.
    pub fn visible(&self) -> u64
        ensures visible { result ≡ visible_in self.now }
        ensures limited { limit_of self.now.parts.entries ≡ self.now.limit }
        ensures sized { length_of (list_length self.now.parts.members.newest) self.now.parts.entries ≡ list_length self.now.parts.members.newest }
    {
        self.array.visible()
    }

    /// It does nothing: the stored superblocks say what its members do, where its last entry ended.
    pub fn check_stored(&self)
        ensures stored { B.tells → IsStoredBy (moving_world (B.given self.now.parts.bank) (B.tape self.now.parts.bank) self.now) self.now }
    {
        let _steps = self.array.steps;
    }

    /// How many slots the bank has.
    pub fn slots(&self) -> u32
        ensures { result ≡ (B.given self.now.parts.bank).slots }
    {
        self.array.slots()
    }
}
