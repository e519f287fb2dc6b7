//! The answers to a request to grow fit it. Each function's contract is the law.

ghost use Rattle.reshape_request.specs.Fitting.{GrowRefusalsFit, GrowPlansFit, FallenStepsAreLegal};

/// The first refusal that is true fits the request.
pub fn grow_refusals_fit()
    ensures { GrowRefusalsFit }
{}

/// So does the plan that nothing refuses.
pub fn grow_plans_fit()
    ensures { GrowPlansFit }
{}

/// A step that tells one fewer than were left is legal.
pub fn fallen_steps_are_legal()
    ensures { FallenStepsAreLegal }
{}
