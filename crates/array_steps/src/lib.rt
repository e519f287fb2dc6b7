//! The background steps of an array that may be in a reshape: one at a time, or as many as a caller asks for.
#![tactic(auto)]

mod batch;
mod stepping;
mod turns;

pub use array::{
    Array, Course, Opened, Pieces, PlannedGrow, Room, Running, add, adopt, append_absent,
    check_array, examine, fail, final_in, flush, found_numbers, halt, list_sectors, plan_grow,
    read_at_rest, read_in_reshape, refuse_grow, refuse_limit, room_for, set_visible, shape_in,
    status, stop, write_at_rest, write_in_reshape, zeros,
};
pub use batch::steps;
pub use stepping::step;
