//! The laws of rules that have applications, over the keys of `rule_index`: a look-up misses none of them.
//! Each law is the contract of a function with an empty body; there is no code.
#![tactic(auto)]

ghost use Rattle.index_laws.specs.Laws.{RulesWithApplicationsAreCompatible, RulesWithApplicationsAreFound};

/// A rule with an application to a goal has a key that is compatible with the goal's target.
pub fn rules_with_applications_are_compatible()
    ensures { RulesWithApplicationsAreCompatible }
{}

/// So it is among the compatible rules, wherever it is among the rules.
pub fn rules_with_applications_are_found()
    ensures { RulesWithApplicationsAreFound }
{}
