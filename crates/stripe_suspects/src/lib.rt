//! Which role of a row whose equations don't hold is to blame, where one is.
#![tactic(auto)]

mod differences;
pub mod judged;
mod judging;
pub mod laws;

pub use judged::Judged;
pub use judging::judge_row;
pub use raid_parity_simd::RowRoles;
