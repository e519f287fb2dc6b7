//! A running array, with a reshape active in it or without one.
#![tactic(auto)]

mod state;

pub use array_grow::{
    Array, Bank, Course, Fault, NoMemory, Opened, PlannedGrow, Refusal, Room, Shape, Who, add,
    adopt, append_absent, examine, fail, final_in, flush, found_numbers, halt, list_sectors,
    plan_grow, refuse_grow, refuse_limit, room_for, set_visible, shape_in, status, stop, zeros,
};
pub use array_reshaping_io::{read as read_in_reshape, write as write_in_reshape};
pub use array_takeover::{Event, Pieces, read as read_at_rest, write as write_at_rest};
pub use state::{Next, Running, check_array};
