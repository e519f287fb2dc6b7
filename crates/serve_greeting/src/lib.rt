//! The handshake of NBD: the server's greeting, the client's options and their answers, up to the requests or the end.
#![tactic(auto)]

mod answers;
mod asked;
mod end;
mod greeting;
mod taking;
mod turn;

pub use asked::{Asked, OptionError};
pub use end::GreetingEnd;
pub use greeting::greet;
