//! What an array that stays whole answers, and what none is refused for where no device failed: definitions and lemmas. There is no code.
#![tactic(auto)]
