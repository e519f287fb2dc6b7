//! A lock of one word round a value with a history: the word is twice the history's length, plus 1 while a turn is held.
#![tactic(auto)]

mod call;
mod callers;
mod lock;
mod served;
mod view;

pub use call::Call;
pub use lock::{Lock, Pass};
pub use served::Served;
pub use view::{
    Copied, Cut, Hand, Known, Law, Learn, Origin, Release, Start, Take, Telling, Union, View,
};
