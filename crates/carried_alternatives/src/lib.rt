//! How the alternatives of a list come from those of its first goal's cluster. Each law is the contract of a function with an empty body; there is no code.
#![tactic(auto)]

ghost use Rattle.carried_alternatives.specs.Laws.{AlternativesAreCarriedOver, AlternativesForgetNumbers};

/// The alternatives of a list are, inside, those of the goals inside numbered by their places, under their numbers; outside the list stays as it was.
pub fn alternatives_are_carried_over()
    ensures { AlternativesAreCarriedOver }
{}

/// A list and the same list numbered by its places have the same alternatives, but for numbers of goals.
pub fn alternatives_forget_numbers()
    ensures { AlternativesForgetNumbers }
{}
