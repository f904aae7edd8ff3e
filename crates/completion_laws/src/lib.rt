//! The laws of candidates whose equations are unified: where the assignments go, and when they can't count. Each law is the contract of a
//! function with an empty body; there is no code.
#![tactic(auto)]

ghost use Rattle.completion_laws.specs.Laws.{UnifiersGo, NothingMentionsItself, CompletionsAreTestedBesides, WhatIsLeftIsGoalsLeft, BodiesAreTested};

/// What the unifier assigns are closed terms over the goals and the fresh ones.
pub fn unifiers_go()
    ensures { UnifiersGo }
{}

/// A candidate does not count where what the goal becomes mentions the goal.
pub fn nothing_mentions_itself()
    ensures { NothingMentionsItself }
{}

/// The entries of a completion may be tested in a shaped list: what is left, with the goal besides.
pub fn completions_are_tested_besides()
    ensures { CompletionsAreTestedBesides }
{}

/// What an assignment leaves of goals is what the function gives.
pub fn what_is_left_is_goals_left()
    ensures { WhatIsLeftIsGoalsLeft }
{}

/// A goal's entry has the goal's type where its body has the target as its type.
pub fn bodies_are_tested()
    ensures { BodiesAreTested }
{}
