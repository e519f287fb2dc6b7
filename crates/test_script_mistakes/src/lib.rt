//! Tests of `script_mistakes`.
#![tactic(auto)]

#[cfg(test)]
mod told;
