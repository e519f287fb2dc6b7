//! Tests of `stripe_cache` and `stripe_suspects`: rows that are kept and taken out, and bad rows worked out by hand.
#![tactic(auto)]

#[cfg(test)]
mod cache;
#[cfg(test)]
mod suspects;
