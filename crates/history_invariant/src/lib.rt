//! What the history of an array keeps from call to call, whether it is reshaped or not: definitions, and laws of how it grows.
#![tactic(auto)]
