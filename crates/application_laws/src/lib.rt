//! The laws of applications among shaped goals: that what rules offer may be used, what applications speak of, and that goals which no goal inside
//! mentions make no difference. Each law is the contract of a function with an empty body; there is no code.
#![tactic(auto)]

ghost use Rattle.application_laws.specs.Laws.{CandidatesMayBeUsed, ApplicationsHaveTheirSupport, GoalsInsideAreShaped, CandidatesAreUnifiedInside, ApplicationsStayInside, ApplicationsAreFramed};

/// Whatever a rule offers for one of some shaped goals, with fresh numbers above theirs, may be used.
pub fn candidates_may_be_used()
    ensures { CandidatesMayBeUsed }
{}

/// Every application of a rule to one of some shaped goals assigns the goal, and otherwise only what the goal mentions; what it assigns and adds mentions only what is left or new.
pub fn applications_have_their_support()
    ensures { ApplicationsHaveTheirSupport }
{}

/// Goals that mention none outside are shaped by themselves.
pub fn goals_inside_are_shaped()
    ensures { GoalsInsideAreShaped }
{}

/// What a rule offers for a goal is unified among goals that mention none outside as it is among all.
pub fn candidates_are_unified_inside()
    ensures { CandidatesAreUnifiedInside }
{}

/// The applications to a goal are among goals that mention none outside what they are among all.
pub fn applications_stay_inside()
    ensures { ApplicationsStayInside }
{}

/// What the first goal of a list doesn't reach takes no part in the applications of a rule.
pub fn applications_are_framed()
    ensures { ApplicationsAreFramed }
{}
