//! What is left of a list of goals once some are assigned, and lists that are numbered by their places, with their laws. Each law is the contract of a function
//! with an empty body; there is no code.
#![tactic(auto)]

ghost use Rattle.goal_lists.specs.Laws.{GoalsLeaveOneList, UnassignedGoalsAreLeft, GoalsThatAreLeftAreShaped, NewGoalsMayStandBeside, WhatIsLeftIsRenamed, RenumberingIsRenaming, ShapedGoalsMentionNoOthers, RenamedGoalsAreShaped};

/// From shaped goals exactly one list is left.
pub fn goals_leave_one_list()
    ensures { GoalsLeaveOneList }
{}

/// The goals that are left are those that are not assigned.
pub fn unassigned_goals_are_left()
    ensures { UnassignedGoalsAreLeft }
{}

/// The list that is left is shaped.
pub fn goals_that_are_left_are_shaped()
    ensures { GoalsThatAreLeftAreShaped }
{}

/// With new goals beside it, it is shaped, too.
pub fn new_goals_may_stand_beside()
    ensures { NewGoalsMayStandBeside }
{}

/// What is left of renamed goals is what is left of the goals, renamed.
pub fn what_is_left_is_renamed()
    ensures { WhatIsLeftIsRenamed }
{}

/// A list that is numbered by its places is the old one with other numbers, and stays shaped; the old numbers give it back.
pub fn renumbering_is_renaming()
    ensures { RenumberingIsRenaming }
{}

/// Shaped goals mention no metavariable but these goals.
pub fn shaped_goals_mention_no_others()
    ensures { ShapedGoalsMentionNoOthers }
{}

/// Goals are shaped where they are so under other numbers.
pub fn renamed_goals_are_shaped()
    ensures { RenamedGoalsAreShaped }
{}
