//! An array that is made in a bank's slots, or found there, begins to run, whether a reshape is active in it or not; and it ends.
#![tactic(auto)]

mod adopting;
mod creating;
mod ending;
mod examining;
mod finding;

pub use adopting::adopt_reshaping;
pub use array_create_assemble::{CreateSpec, read_superblock};
pub use array_steps::{
    Array, PlannedGrow, Running, add, check_array, fail, flush, plan_grow, read_at_rest,
    read_in_reshape, refuse_grow, refuse_limit, set_visible as limit_at_rest, status, steps,
    write_at_rest, write_in_reshape,
};
pub use creating::create_array;
pub use ending::{halt, stop};
pub use examining::examine;
pub use finding::open_running;
