//! The calls of an array that are done alike whether a reshape is active in it or not, and two that want none: it begins as an
//! opening found it, and its visible size is limited.
#![tactic(auto)]

mod adding;
mod adopting;
mod answering;
mod ending;
mod examining;
mod failing;
mod limiting;
mod rooms;
mod settling;
mod showing;

pub use adding::add;
pub use adopting::{Opened, adopt};
pub use answering::answer;
pub use ending::{halt, stop};
pub use examining::examine;
pub use failing::fail;
pub use limiting::set_visible;
pub use rooms::make_room;
pub use settling::flush;
pub use showing::status;
