//! The replies to the lines of a script.

use array_requests::Refusal;
use history_monitor::AlertList;
use script::{Lane, Sb, Status};

/// A reply that no history holds: an array was made or found, a slot's superblock was looked at, alerts of the array that runs were told, or
/// the line was refused.
#[derive(Drop)]
pub enum Outside {
    Created,
    Assembled { epoch: u32, status: Status },
    Examined { slot: u32, found: Option<Sb> },
    Alerts { list: AlertList },
    Refused { refusal: Refusal },
}

/// A reply that the history of an epoch holds, both counted from 0, or one that none holds.
#[derive(Drop)]
pub enum Answered {
    Inside { epoch: u32, at: u64 },
    Outside(Outside),
}

/// The reply to a line of the script, and the number of the bank's operations when it was made.
#[derive(Drop)]
pub struct LineReply {
    pub line: u64,
    pub lane: Lane,
    pub end: u64,
    pub what: Answered,
}
