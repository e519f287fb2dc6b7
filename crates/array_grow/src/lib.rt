//! A request to grow an array: it is judged, and planned where nothing speaks against it. In a reshape it is refused, as one to limit
//! the list is.
#![tactic(auto)]

mod backing;
mod judging;
mod planning;
mod refusing;

pub use array_calls::{
    Opened, add, adopt, answer, examine, fail, flush, halt, make_room, set_visible, status, stop,
};
pub use array_reply_specs::{
    Bank, Fault, NoMemory, Phase, Refusal, Shape, Who, final_in, shape_in,
};
pub use array_transition::{
    Array, Course, Due, Room, append_absent, begin_reshape, due_step, finish_reshape,
    found_numbers, list_sectors, room_for, step, steps_left, zeros,
};
pub use backing::can_back;
pub use planning::{PlannedGrow, plan_grow};
pub use refusing::{refuse_grow, refuse_limit};
