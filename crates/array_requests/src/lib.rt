//! The requests of a caller to a running array.
#![tactic(auto)]

mod adding;
mod failing;
mod limiting;
mod performing;
mod planning;
mod reading;
mod reply;
mod settling;
mod showing;
mod writing;

pub use adding::add;
pub use array_call_specs::{Fault, NoMemory, Refusal, Who};
pub use array_open::{
    CreateSpec, Running, create_array, examine, halt, open_running, read_superblock, steps, stop,
};
pub use bank::{Bank, BankFault, Wish};
pub use failing::fail;
pub use limiting::set_visible;
pub use performing::{perform, tells_sizes};
pub use planning::plan_grow;
pub use reading::read;
pub use reply::Reply;
pub use settling::flush;
pub use showing::status;
pub use writing::write;
