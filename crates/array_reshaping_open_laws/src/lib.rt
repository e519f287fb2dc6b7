//! What an opening finds of an array in a reshape is what such an array keeps. Each function's contract is the law.
#![tactic(auto)]

ghost use Rattle.std.specs.Prelude.{⊤};
ghost use Rattle.array_reshaping_open_laws.specs.Opening.{FoundWindowsOpen, OpeningsMove};

/// What `find_window` answers of members that were opened is what an opening finds.
pub fn found_windows_open()
    ensures { FoundWindowsOpen ⊤ }
{}

/// What an opening finds of an array in a reshape is what such an array keeps from call to call.
pub fn openings_move()
    ensures { OpeningsMove ⊤ }
{}

pub use array_open_window::{find_window, lose_recovering};
pub use array_reshaping_invariant::{PhasesLeft, Window};
