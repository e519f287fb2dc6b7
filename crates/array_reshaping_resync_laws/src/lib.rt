//! The resync of an array in a reshape: laws, by which a stripe that is mended, or isn't, and the end of the resync keep the array's record.
#![tactic(auto)]

pub use array_reshaping_invariant::{
    Course, Finished, begin, copy, final_in, finish, finish_window, first_resync_refusal,
    flush_and_mark, has_unnamed, is_spare, list_length, newly_unassigned, read_around_window,
    record, record_missing, relied_sector, resync_left, resync_list, shape_in, too_many,
    unassigned_roles, write_list, zero,
};
