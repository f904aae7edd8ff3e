//! What nodes are seen as.

use meta_goals::Goals;
use std::marker::Model;

/// What a node is seen as: a contract sees an `LfGoals`, the list of goals as plain data. It only names what trees are over, and no value of it is made.
pub struct SeenGoals {
    goals: Goals,
}

impl Model for SeenGoals {
    ghost use Rattle.lf_definitions.specs.GoalLists.{LfGoals};
    ghost use Rattle.rule_problem.specs.Codes.{list_code};

    ghost Value = { LfGoals };

    ghost coded = { list_code };

    ghost use Rattle.meta_goals.specs.GoalsOf.{goals_of};

    ghost view = { λ a. goals_of a.goals };
}
