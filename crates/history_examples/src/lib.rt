//! Small epochs, each proved right or wrong, so that the definitions of a history mean what they say. There is no code.
#![tactic(auto)]
