//! The transmission phase of NBD: the frames of requests and of simple replies, what a request asks for, and requests from a source.
#![tactic(auto)]

mod command;
mod errors;
mod laws;
mod reply;
mod request;
mod taking;
mod task;

pub use command::Command;
pub use errors::RequestError;
pub use laws::headers_have_one_meaning;
pub use reply::Reply;
pub use request::Request;
pub use taking::{FrameError, take_request};
pub use task::Task;
