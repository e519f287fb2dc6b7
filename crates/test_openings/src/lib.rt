//! Tests of `superblocks` and `array_create_assemble`: what an election and an update answer, what a stop leaves of an update, arrays that are found or refused, and
//! arrays that are made, against tables by hand and real arrays.
#![tactic(auto)]

#[cfg(test)]
mod arrays;
#[cfg(test)]
mod banks;
#[cfg(test)]
mod checks;
#[cfg(test)]
mod elections;
#[cfg(test)]
mod roles;
#[cfg(test)]
mod updates;
