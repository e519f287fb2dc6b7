//! What a monitor tells, line by line: the tests of `history_monitor`.
#![tactic(auto)]

#[cfg(test)]
mod telling;
