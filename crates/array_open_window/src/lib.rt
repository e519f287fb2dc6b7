//! What an opening finds of an array in a reshape beside its superblocks: the window, by what its backup holds, and the slots that
//! recover a role.
#![tactic(auto)]

mod recovering;
mod windows;

pub use array_reshaping_state::asking::{role_count, steps_left, visible};
pub use array_reshaping_state::holding::slot_of;
pub use array_reshaping_state::refusing::{first_read_refusal_from, first_write_refusal_from};
pub use array_reshaping_state::reshape::{
    is_window_critical, list_sectors, next_window_of, stripe_to_copy, stripe_to_zero,
    stripes_to_zero, window_stripes,
};
pub use array_reshaping_state::stepping::{Due, due_step};
pub use array_reshaping_state::windows::{
    backed_up_span, meets, open_span, part_in, uncertain_span,
};
pub use array_reshaping_state::{
    Course, next_resync, relied_sector, resync_left, resync_stripes, resyncs_at,
};
pub use recovering::lose_recovering;
pub use windows::find_window;
