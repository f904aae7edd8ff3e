//! What the rules of a book do with a goal, by their builders. A call does nothing: its contract is the law.
//! `rule_sets` and `applications` stand below.
#![tactic(auto)]

ghost use Rattle.rule_methods.specs.Laws.{RulesTakeAtoms};

/// Where a rule of a book over a signature takes a hypothesis for an argument, that argument has no binders.
pub fn rules_take_atoms()
    ensures { RulesTakeAtoms }
{}
