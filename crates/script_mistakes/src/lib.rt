//! What people are told of a line that means nothing: what is wrong, where, what is wanted there, and which word may have been meant.
#![tactic(auto)]

pub mod explained;
pub mod messages;
pub mod nearest;
pub mod scripts;

pub use explained::{Explanation, explain};
pub use messages::{Message, message_of, push_marked, suggestion};
pub use script::{Diagnosis, Mistake, diagnose_line};
pub use scripts::{Reason, ScriptMistake, diagnose_script};
