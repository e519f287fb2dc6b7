//! What contracts say of the calls of an array, whether a reshape is active in it or not. Definitions alone.
#![tactic(auto)]

pub use array_call_laws::{append_entry, check_number};
pub use array_reshaping_state::asking::{visible, visible_of};
pub use array_reshaping_state::refusing::{first_read_refusal_from, first_write_refusal_from};
pub use array_reshaping_state::reshape::{
    is_window_critical, list_sectors, next_window_of, stripe_to_copy, stripe_to_zero,
};
pub use array_reshaping_state::stepping::{Due, due_step};
pub use array_reshaping_state::windows::{backed_up_span, meets, open_span, uncertain_span};
pub use array_reshaping_state::{final_in, is_spare, shape_in};
