//! The first goal of a list.

ghost use Rattle.std.specs.Prelude.{◌≡◌, option_map};
ghost use Rattle.lf_definitions.specs.GoalLists.{first_goal};
ghost use Rattle.lf_terms.specs.Targets.{goal_of};
ghost use Rattle.meta_goals.specs.GoalsOf.{goals_of};

use lf_terms::Goal;
use meta_goals::Goals;

/// The first goal of a list. It takes no memory.
pub fn first_goal(goals: &Goals) -> Option<&Goal>
    ensures { option_map (λ goal. goal_of goal.now) result ≡ first_goal (goals_of goals.now) }
{
    let proofs = goals.proofs.as_slice();
    if proofs.len() > 0 {
        return Some(&proofs[0]);
    }
    let witnesses = goals.witnesses.as_slice();
    if witnesses.len() > 0 {
        return Some(&witnesses[0]);
    }
    None
}
