//! Normal forms and alternatives of shaped goals: their lists are shaped, and their builds take the goals to them. Each law is the contract of a function with an empty body;
//! there is no code.
#![tactic(auto)]

ghost use Rattle.taken_alternatives.specs.Laws.{NormalFormsAreReached, AlternativesAreReached};

/// The build of a normal form takes the goals to its list.
pub fn normal_forms_are_reached()
    ensures { NormalFormsAreReached }
{}

/// The build of an alternative takes the goals to its list.
pub fn alternatives_are_reached()
    ensures { AlternativesAreReached }
{}
