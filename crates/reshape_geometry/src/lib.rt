//! How a reshape goes: units, sides, windows and steps. Sizes and positions are in sectors.
#![tactic(auto)]

pub mod laws;
pub mod limits;
pub mod shapes;
pub mod steps;
pub mod units;
pub mod windows;

pub use raid_types::{Phase, Plan, Refusal, Shape, ShapeField, Wish, WishedLayout};
pub use shapes::{data_disks, list_end, stripe_sectors};
pub use steps::steps_of;
pub use units::unit;
pub use windows::{is_critical, side, window};
