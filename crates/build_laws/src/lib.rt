//! One assignment after another. Each law is the contract of a function with an empty body; there is no code.
#![tactic(auto)]

ghost use Rattle.build_laws.specs.Laws.{AssignmentsFollow, NothingIsTaken, FollowingIsAssociative, NothingFollows};

/// Two assignments, one after the other, are one.
pub fn assignments_follow()
    ensures { AssignmentsFollow }
{}

/// With nothing assigned a list stays as it is.
pub fn nothing_is_taken()
    ensures { NothingIsTaken }
{}

/// Three assignments are one, in either way of putting them together.
pub fn following_is_associative()
    ensures { FollowingIsAssociative }
{}

/// Nothing before or after an assignment changes nothing.
pub fn nothing_follows()
    ensures { NothingFollows }
{}
