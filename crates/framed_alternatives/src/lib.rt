//! Alternatives of a list and of the goals that its first goal reaches. Each law is the contract of a function with an empty body; there is no code.
#![tactic(auto)]

ghost use Rattle.framed_alternatives.specs.Laws.{ListsAfterAreFramed, NormalFormsAreFramed, AlternativesAreFramed};

/// The list after an application is, inside, that of the goals inside, and outside as it was.
pub fn lists_after_are_framed()
    ensures { ListsAfterAreFramed }
{}

/// So is the normal form.
pub fn normal_forms_are_framed()
    ensures { NormalFormsAreFramed }
{}

/// And so are the alternatives.
pub fn alternatives_are_framed()
    ensures { AlternativesAreFramed }
{}
