//! What the lines of a script do on a bank, as definitions and laws: its replies, the histories of its arrays, and where it stands
//! between two lines.
#![tactic(auto)]

pub mod laws;
mod report;
mod states;

pub use array_requests::{
    Bank, BankFault, CreateSpec, Fault, NoMemory, Refusal, Running, Who, Wish, add, create_array,
    examine, fail, flush, halt, open_running, plan_grow, read, read_superblock, set_visible,
    status, steps, stop, write,
};
pub use history_monitor::{Alert, AlertKind, AlertList, Hook, Monitor};
pub use report::{Answered, LineReply, Outside};
pub use script::{CreateLine, Entry, Epoch, Event, Line, Sb, seed_sectors};
pub use states::State;
