//! The ways between an array without an active reshape and one in a reshape: a reshape begins, and ends.
#![tactic(auto)]

mod beginning;
mod ending;
mod refusing;

pub use array_reshaping_steps::{
    Array, Course, Due, Event, Members, PhasesLeft, Room, all_left, append_absent, contains,
    due_step, found_numbers, holds_role, judge_grow, list_sectors, plan_of, room_for, step,
    steps_left, zeros,
};
pub use beginning::begin_reshape;
pub use ending::finish_reshape;
