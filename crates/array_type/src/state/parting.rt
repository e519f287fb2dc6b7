//! An array is taken apart, and put together again, as one without an active reshape or as one in a reshape.

ghost use Rattle.std.specs.Prelude.{◌≡◌, true, false, Some, length, vec_capacity};
ghost use Rattle.sb_election.specs.sb_specs_Reading.{is_reshaping};
ghost use Rattle.array_reshaping_laws.specs.array_call_specs_Kept.{scope_in};
ghost use Rattle.array_reshaping_laws.specs.reshape_progress_Laws.{closed};
ghost use Rattle.array_reshaping_laws.specs.array_fixed_laws_Ready.{IsReady as IsReadyAtRest};
ghost use Rattle.array_reshaping_laws.specs.Ready.{IsReady as IsReadyInReshape};

use crate::state::Array;
use array_parts::{Pieces, Window};
use array_reshaping_laws::Course;
use sb_election::Bank;

impl<B: Bank> Array<B> {
    /// What an array without an active reshape owns.
    pub fn part_fixed(self) -> Pieces<B>
        requires still { is_reshaping self.parts.members.newest ≡ false }
        ensures ready { IsReadyAtRest B.tells (B.given result.bank) (B.tape result.bank) (scope_in (B.given result.bank) result.epoch.uuid result.epoch.given result.backup)
            result.epoch.first result.epoch.entries.items result.members result.work result.ahead result.limit (B.faults_of result.bank) result.steps result.epoch.entries.room
            (vec_capacity result.rows) (length result.buffer.items) (vec_capacity result.far_rows) (length result.far_buffer.items) }
        ensures same { self ≡ record {
          parts = record {
            bank = result.bank;
            uuid = result.epoch.uuid;
            given = result.epoch.given;
            first = result.epoch.first;
            last = result.epoch.last;
            entries = result.epoch.entries.items;
            backup = result.backup;
            members = result.members;
            work = result.work;
            steps = result.steps;
          };
          course = closed 0;
          ahead = result.ahead;
          limit = result.limit;
        } }
    {
        let Array {
            alloc,
            bank,
            epoch,
            backup,
            members,
            work,
            course: _,
            ahead,
            limit,
            steps,
            rows,
            buffer,
            far_rows,
            far_buffer,
            window: _,
        } = self;
        Pieces {
            alloc,
            bank,
            epoch,
            backup,
            members,
            work,
            ahead,
            limit,
            steps,
            rows,
            buffer,
            far_rows,
            far_buffer,
        }
    }

    /// An array without an active reshape that owns this.
    pub fn of_fixed(pieces: Pieces<B>) -> Array<B>
        requires ready { IsReadyAtRest B.tells (B.given pieces.bank) (B.tape pieces.bank) (scope_in (B.given pieces.bank) pieces.epoch.uuid pieces.epoch.given pieces.backup)
            pieces.epoch.first pieces.epoch.entries.items pieces.members pieces.work pieces.ahead pieces.limit (B.faults_of pieces.bank) pieces.steps pieces.epoch.entries.room
            (vec_capacity pieces.rows) (length pieces.buffer.items) (vec_capacity pieces.far_rows) (length pieces.far_buffer.items) }
        ensures same { result ≡ record {
          parts = record {
            bank = pieces.bank;
            uuid = pieces.epoch.uuid;
            given = pieces.epoch.given;
            first = pieces.epoch.first;
            last = pieces.epoch.last;
            entries = pieces.epoch.entries.items;
            backup = pieces.backup;
            members = pieces.members;
            work = pieces.work;
            steps = pieces.steps;
          };
          course = closed 0;
          ahead = pieces.ahead;
          limit = pieces.limit;
        } }
    {
        let Pieces {
            alloc,
            bank,
            epoch,
            backup,
            members,
            work,
            ahead,
            limit,
            steps,
            rows,
            buffer,
            far_rows,
            far_buffer,
        } = pieces;
        let course = Course {
            window: Window::Closed,
            zeroed: 0,
        };
        Array {
            alloc,
            bank,
            epoch,
            backup,
            members,
            work,
            course,
            ahead,
            limit,
            steps,
            rows,
            buffer,
            far_rows,
            far_buffer,
            window: Vec::new(alloc),
        }
    }

    /// What an array in a reshape owns, how far the reshape has come, and the buffer of its window.
    pub fn part_reshaping(self) -> (Pieces<B>, Course, Vec<u8>)
        requires active { is_reshaping self.parts.members.newest ≡ true }
        ensures ready { let p = result.0 in IsReadyInReshape B.tells (B.given p.bank) (B.tape p.bank) (scope_in (B.given p.bank) p.epoch.uuid p.epoch.given p.backup)
            p.epoch.first p.epoch.entries.items p.members p.work result.1 p.ahead p.limit result.2.items (B.faults_of p.bank) p.steps p.epoch.entries.room
            (vec_capacity p.rows) (length p.buffer.items) (vec_capacity p.far_rows) (length p.far_buffer.items) }
        ensures same { let p = result.0 in self ≡ record {
          parts = record {
            bank = p.bank;
            uuid = p.epoch.uuid;
            given = p.epoch.given;
            first = p.epoch.first;
            last = p.epoch.last;
            entries = p.epoch.entries.items;
            backup = p.backup;
            members = p.members;
            work = p.work;
            steps = p.steps;
          };
          course = result.1;
          ahead = p.ahead;
          limit = p.limit;
        } }
    {
        let Array {
            alloc,
            bank,
            epoch,
            backup,
            members,
            work,
            course,
            ahead,
            limit,
            steps,
            rows,
            buffer,
            far_rows,
            far_buffer,
            window,
        } = self;
        let pieces = Pieces {
            alloc,
            bank,
            epoch,
            backup,
            members,
            work,
            ahead,
            limit,
            steps,
            rows,
            buffer,
            far_rows,
            far_buffer,
        };
        (pieces, course, window)
    }

    /// An array in a reshape that owns this, whose backup is the slot `backup`.
    pub fn of_reshaping(pieces: Pieces<B>, backup: u32, course: Course, window: Vec<u8>) -> Array<B>
        requires backup { pieces.backup ≡ Some backup }
        requires ready { IsReadyInReshape B.tells (B.given pieces.bank) (B.tape pieces.bank) (scope_in (B.given pieces.bank) pieces.epoch.uuid pieces.epoch.given pieces.backup)
            pieces.epoch.first pieces.epoch.entries.items pieces.members pieces.work course pieces.ahead pieces.limit window.items (B.faults_of pieces.bank) pieces.steps pieces.epoch.entries.room
            (vec_capacity pieces.rows) (length pieces.buffer.items) (vec_capacity pieces.far_rows) (length pieces.far_buffer.items) }
        ensures same { result ≡ record {
          parts = record {
            bank = pieces.bank;
            uuid = pieces.epoch.uuid;
            given = pieces.epoch.given;
            first = pieces.epoch.first;
            last = pieces.epoch.last;
            entries = pieces.epoch.entries.items;
            backup = pieces.backup;
            members = pieces.members;
            work = pieces.work;
            steps = pieces.steps;
          };
          course = course;
          ahead = pieces.ahead;
          limit = pieces.limit;
        } }
    {
        let Pieces {
            alloc,
            bank,
            epoch,
            backup: _,
            members,
            work,
            ahead,
            limit,
            steps,
            rows,
            buffer,
            far_rows,
            far_buffer,
        } = pieces;
        Array {
            alloc,
            bank,
            epoch,
            backup: Some(backup),
            members,
            work,
            course,
            ahead,
            limit,
            steps,
            rows,
            buffer,
            far_rows,
            far_buffer,
            window,
        }
    }
}
