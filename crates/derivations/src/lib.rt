//! Alternatives on all data, derivations, scripts with what comes of following them, and the unfolding of a search, on plain data. Each law is the contract of a function with an empty body; there is
//! no code.
#![tactic(auto)]

ghost use Rattle.derivations.specs.Laws.{AlternativesDiffer, NoGoalHasNoAlternative, DerivableTypesReplay};

/// The last steps of a list's alternatives differ.
pub fn alternatives_differ()
    ensures { AlternativesDiffer }
{}

/// A list with no goal has no alternative.
pub fn no_goal_has_no_alternative()
    ensures { NoGoalHasNoAlternative }
{}

/// A type is derivable exactly where some script closes it.
pub fn derivable_types_replay()
    ensures { DerivableTypesReplay }
{}
