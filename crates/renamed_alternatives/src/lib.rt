//! Normal forms and alternatives under renamings of metavariables. Each law is the contract of a function with an empty body; there is no code.
#![tactic(auto)]

ghost use Rattle.renamed_alternatives.specs.Laws.{NewNumbersAreFresh, ListsAfterAreRenamed, NormalFormsAreRenamed, AlternativesAreRenamed};

/// The new goals of an application have fresh numbers.
pub fn new_numbers_are_fresh()
    ensures { NewNumbersAreFresh }
{}

/// The list after a renamed application is the list after it, renamed.
pub fn lists_after_are_renamed()
    ensures { ListsAfterAreRenamed }
{}

/// So are normal forms.
pub fn normal_forms_are_renamed()
    ensures { NormalFormsAreRenamed }
{}

/// And alternatives.
pub fn alternatives_are_renamed()
    ensures { AlternativesAreRenamed }
{}
