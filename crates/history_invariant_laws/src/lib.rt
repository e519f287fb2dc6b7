//! What a call leaves of the history that it enters losses and events in, whatever array it is. Laws alone.
#![tactic(auto)]
