//! What a wish makes of a shape: one or two phases, or a refusal. Sizes are in sectors.
#![tactic(auto)]

pub mod laws;
pub mod phases;
pub mod plans;
pub mod targets;

pub use phases::{phase_shape, phase_steps, plan_steps};
pub use plans::plan;
pub use reshape_geometry::{is_critical, list_end, steps_of, stripe_sectors, window};
pub use targets::target;
