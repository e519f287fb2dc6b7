//! The history of an epoch, entry by entry, as types; what it must be is defined in specs/.
#![tactic(auto)]

pub mod entries;
pub mod events;
pub mod laws;

pub use bank::Bank;
pub use bank_backup::{SectionFault, clear_section, find_section, write_section};
pub use entries::Entries;
pub use events::{Entry, Epoch, Event, LostCause, Request, StepKind};
pub use raid_parity::syndromes;
pub use raid_types::{
    BusyKind, Phase, Plan, Refusal, Role, Sectors, Shape, ShapeField, Span, Status, Who, Wish,
};
pub use reshape_plan::{
    is_critical, list_end, phase_shape, phase_steps, plan, plan_steps, steps_of, stripe_sectors,
    window,
};
pub use sb_read_laws::{Sb, contains, entry_of, is_clean};
