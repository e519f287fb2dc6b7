//! What a run reports.

use history_reopen_laws::Epoch;
use run_session::LineReply;

/// How a run ended: the status that the program ends with, the first bad line where one was bad, the bank, the epochs of
/// its arrays, the replies in the order of the lines, and how many bytes of their text the sink took whole.
#[derive(Drop)]
pub struct Report<B> {
    pub status: u8,
    pub bad_line: u64,
    pub bank: B,
    pub epochs: Vec<Epoch>,
    pub lines: Vec<LineReply>,
    pub shown: u64,
}
