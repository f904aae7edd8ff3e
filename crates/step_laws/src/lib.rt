//! Single steps of the search: that the list after an application is shaped, and what the application's assignment does. Each law is the contract of a function with an
//! empty body; there is no code.
#![tactic(auto)]

ghost use Rattle.step_laws.specs.Laws.{ApplicationsAreSteps};

/// Each application of a rule to the first of some shaped goals takes them to a shaped list.
pub fn applications_are_steps()
    ensures { ApplicationsAreSteps }
{}
