//! The laws of an array that stays whole.

ghost use Rattle.history_whole_laws.specs.Unfailed.{VerdictsTellNoFailure};
ghost use Rattle.history_whole_laws.specs.Whole.{WholeArraysLackNothing, NoRoleIsGone};

/// Where an array stays whole, and its history is legal and tells no failure of a device, nothing is lost in it, and nothing is refused for what is missing.
pub fn whole_arrays_lack_nothing()
    ensures { WholeArraysLackNothing }
{}

/// A role that no entry tells lost isn't gone, but for a takeover.
pub fn no_role_is_gone()
    ensures { NoRoleIsGone }
{}

/// What an assembly finds isn't refused for a failure.
pub fn verdicts_tell_no_failure()
    ensures { VerdictsTellNoFailure }
{}
