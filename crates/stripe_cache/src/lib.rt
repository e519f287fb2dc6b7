//! Rows that are kept in memory, some of them changed and not written yet.
#![tactic(auto)]

mod cache;
mod cached;
mod entry;
mod key;

pub use cache::Cache;
pub use cached::{Cached, Delayed, Kept};
