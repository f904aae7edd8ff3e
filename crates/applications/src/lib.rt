//! The applications of rules to the first goal of a list, as functions on plain data. Each law is the contract of a function with an empty body; there is no code.
#![tactic(auto)]

ghost use Rattle.applications.specs.Laws.{OpeningsAreFunctions, OpeningFunctionsAreRenamed, CandidatesAreRenamed, ApplicationsAreRenamed, LabelsDiffer};

/// Where a type may be opened, the function gives the one way.
pub fn openings_are_functions()
    ensures { OpeningsAreFunctions }
{}

/// An opening goes along with a renaming of metavariables that takes fresh numbers to fresh numbers.
pub fn opening_functions_are_renamed()
    ensures { OpeningFunctionsAreRenamed }
{}

/// So does what a rule offers, over a shaped signature.
pub fn candidates_are_renamed()
    ensures { CandidatesAreRenamed }
{}

/// And so do the applications to a goal, and those to the first goal of a list.
pub fn applications_are_renamed()
    ensures { ApplicationsAreRenamed }
{}

/// The applications of a rule to a goal have its number, and differ in their choices or in their hypotheses.
pub fn labels_differ()
    ensures { LabelsDiffer }
{}
