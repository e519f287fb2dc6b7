//! Tests of `run_scripts`: runs in which a call fails, whose replies are worked out by hand, and the parts of a run.
#![tactic(auto)]

#[cfg(test)]
mod beside;
#[cfg(test)]
mod parts;
#[cfg(test)]
mod runs;
