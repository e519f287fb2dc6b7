//! A request to grow: why it is refused, what its plan is, and the steps that are left of one. No device is touched.
#![tactic(auto)]

pub mod fit_laws;
pub mod judging;
pub mod left;
pub mod left_laws;
pub mod planning;
pub mod shapes;
pub mod window;

pub use history::{
    Entries, Epoch, Event, LostCause, Refusal, SectionFault, Shape, StepKind, clear_section,
    find_section, is_critical, list_end, stripe_sectors, write_section,
};
pub use judging::judge_grow;
pub use left::{planned_left, reshape_left};
pub use planning::{GrowPlan, plan_of};
pub use stripe_row::{Bank, BankFault, Members, is_reshaping, lose_slots, with};
pub use window::{PhasesLeft, Window};
