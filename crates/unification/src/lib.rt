//! Unification of patterns: its definition, as a transition system on equations that are left and what was assigned, and the laws that say that each
//! problem has one end, and what is known of an answer. Each law is the contract of a function with an empty body; there is no code.
#![tactic(auto)]

ghost use Rattle.unification.specs.Laws.{ReadingIsExpansion, VariablesAreTested, TransitionsAreUnique, ShapedProblemsHaveOneEnd, AnswersAreResolved};

/// A term reads as a variable where it is the eta-long form of one, and at a shape it is that of the shape.
pub fn reading_is_expansion()
    ensures { ReadingIsExpansion }
{}

/// The tests of a term's variables say what they are named for.
pub fn variables_are_tested()
    ensures { VariablesAreTested }
{}

/// At most one transition fits a state, and each state has at most one end.
pub fn transitions_are_unique()
    ensures { TransitionsAreUnique }
{}

/// Every shaped problem has exactly one end.
pub fn shaped_problems_have_one_end()
    ensures { ShapedProblemsHaveOneEnd }
{}

/// An answer is resolved and shaped, and speaks of the equations' metavariables alone.
pub fn answers_are_resolved()
    ensures { AnswersAreResolved }
{}
