//! Laws of suspects.

ghost use Rattle.stripe_suspects.specs.Rule.{SuspectsAreUnique, TheRuleIsExact};

/// A bad row has one suspect at most.
pub fn suspects_are_unique()
    ensures { SuspectsAreUnique }
{}

/// The suspect is exactly the role by which the differences of P and Q are explained.
pub fn the_rule_is_exact()
    ensures { TheRuleIsExact }
{}
