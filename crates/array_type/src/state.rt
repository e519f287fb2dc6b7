//! An array.

mod asking;
mod going;
mod left;
mod parting;

use array_parts::{Epoch, PhasesLeft, Work};
use array_reshaping_laws::Course;
pub use going::check_going;
pub use left::{left_at_rest, left_in_reshape};
use sb_election::{Bank, Members};
use std::alloc::Global;
use std::marker::Model;

/// An array over slots of a bank. Whether a reshape is active its superblocks say: then each sector of its list is placed by the shape of
/// its region, but those of the open window, which are in the buffer `window`, and `course` says how far it has come. `ahead` are the
/// phases of a plan that haven't begun, and only the sectors of the list below `limit` can be read and written, or all of them without
/// one. There is room for the entries of so many `steps`, and in `rows`, `buffer`, `far_rows` and `far_buffer` for one call in two
/// regions.
#[derive(Drop)]
pub struct Array<B: Bank> {
    pub alloc: Global,
    pub bank: B,
    pub epoch: Epoch,
    pub backup: Option<u32>,
    pub members: Members,
    pub work: Work,
    pub course: Course,
    pub ahead: PhasesLeft,
    pub limit: Option<u64>,
    pub steps: u64,
    pub rows: Vec<u64>,
    pub buffer: Vec<u8>,
    pub far_rows: Vec<u64>,
    pub far_buffer: Vec<u8>,
    pub window: Vec<u8>,
}

impl<B: Bank> Model for Array<B> {
    ghost use Rattle.std.specs.Prelude.{◌≡◌, vec_capacity, length, IsSome};
    ghost use Rattle.sb_election.specs.sb_specs_Reading.{is_reshaping};
    ghost use Rattle.array_reshaping_laws.specs.array_call_specs_Kept.{scope_in};
    ghost use Rattle.array_reshaping_laws.specs.reshape_progress_Laws.{closed};
    ghost use Rattle.array_reshaping_laws.specs.array_specs_Parts.{RunningParts};
    ghost use Rattle.array_reshaping_laws.specs.array_fixed_laws_Ready.{IsReady as IsReadyAtRest};
    ghost use Rattle.array_reshaping_laws.specs.Ready.{IsReady as IsReadyInReshape};
    ghost use Rattle.array_type.specs.One.{KeepsBy};

    ghost Value = { RunningParts B };

    ghost view = { λ a. record {
      parts = record {
        bank = a.bank;
        uuid = a.epoch.uuid;
        given = a.epoch.given;
        first = a.epoch.first;
        last = a.epoch.last;
        entries = a.epoch.entries.items;
        backup = a.backup;
        members = a.members;
        work = a.work;
        steps = a.steps;
      };
      course = a.course;
      ahead = a.ahead;
      limit = a.limit;
    } };

    ghost invariant = { λ a. KeepsBy (is_reshaping a.members.newest)
        (IsSome a.backup × IsReadyInReshape B.tells (B.given a.bank) (B.tape a.bank) (scope_in (B.given a.bank) a.epoch.uuid a.epoch.given a.backup)
        a.epoch.first a.epoch.entries.items a.members a.work a.course a.ahead a.limit a.window.items (B.faults_of a.bank) a.steps a.epoch.entries.room
        (vec_capacity a.rows) (length a.buffer.items) (vec_capacity a.far_rows) (length a.far_buffer.items))
        ((a.course ≡ closed 0) × IsReadyAtRest B.tells (B.given a.bank) (B.tape a.bank) (scope_in (B.given a.bank) a.epoch.uuid a.epoch.given a.backup)
        a.epoch.first a.epoch.entries.items a.members a.work a.ahead a.limit (B.faults_of a.bank) a.steps a.epoch.entries.room
        (vec_capacity a.rows) (length a.buffer.items) (vec_capacity a.far_rows) (length a.far_buffer.items)) };
}
