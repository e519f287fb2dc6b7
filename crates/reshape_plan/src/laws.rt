//! A law of the plans. The function's contract is the law.

ghost use Rattle.reshape_plan.specs.Plans.{PhasesLeadToTheTarget};

/// The phases of a wish lead to its target.
pub fn phases_lead_to_the_target()
    ensures { PhasesLeadToTheTarget }
{}
