//! The texts that tell of a whole array, `detail`, `mdstat` and `alerts`, and of a slot's superblock, `examine`.
#![tactic(auto)]

mod alerts;
mod detail;
mod examine;
mod mdstat;
mod words;

pub use alerts::push_alerts;
pub use detail::push_detail;
pub use examine::push_examined;
pub use history_monitor::{AlertKind, AlertList, Hook, Monitor};
pub use mdstat::push_mdstat;
pub use script::{
    Epoch, Event, Lane, Line, Numbered, Request, push_assembled, push_created, push_event,
    push_lane, push_refusal, push_waited, push_worker, push_worker_refusal, seed_sectors,
};
