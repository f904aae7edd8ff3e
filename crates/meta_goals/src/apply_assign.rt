//! What an assignment leaves of lists of goals.

ghost use Rattle.std.specs.Prelude.{◌≡◌, List, [], ◌∷◌, ◌++◌, IfOk, OnOk};
ghost use Rattle.lf_definitions.specs.GoalLists.{all_goals};
ghost use Rattle.lf_definitions.specs.Typing.{LfGoal};
ghost use Rattle.goal_lists.specs.Assigning.{Leaves, LeavesGoals};
ghost use Rattle.lf_terms.specs.Targets.{goal_of};
ghost use Rattle.meta_goals.specs.GoalsOf.{goals_of};
ghost use Rattle.meta_goals.specs.Bindings.{assigning};
ghost use Rattle.meta_goals.specs.Instantiates.{Instantiates, GoalIsShaped, GoalsAreShaped, GoalsKeepShape};

use crate::assign::Assign;
use crate::goals::Goals;
use crate::instantiate::instantiate_goal;
use basics::NoMemory;
use lf_terms::{Goal, GoalList};
use std::alloc::Global;

/// The goals that are not assigned, instantiated. Scopes before and after are asked for in which the goals
/// are shaped; in any such scopes those that are left are shaped. A goal that mentions no assigned goal
/// shares what it holds.
pub fn apply_assign(alloc: Global, goals: &Goals, sigma: &Assign) -> Result<Goals, NoMemory>
    requires { Instantiates sigma.now (GoalsAreShaped (all_goals (goals_of goals.now))) }
    ensures result { IfOk result (λ left. LeavesGoals (assigning sigma.now) (goals_of goals.now) (goals_of left)) }
    ensures shaped { IfOk result (λ left. GoalsKeepShape sigma.now (all_goals (goals_of goals.now)) (all_goals (goals_of left))) }
{
    let proofs = left_of(alloc, &goals.proofs, sigma)?;
    let witnesses = left_of(alloc, &goals.witnesses, sigma)?;
    Ok(Goals { proofs, witnesses })
}

// What is left of a list.
fn left_of(alloc: Global, goals: &GoalList, sigma: &Assign) -> Result<GoalList, NoMemory>
    requires { Instantiates sigma.now (GoalsAreShaped goals.now) }
    ensures { IfOk result (λ left. Leaves (assigning sigma.now) goals.now left) }
{
    let mut left = GoalList::new(alloc);
    let items = goals.as_slice();
    for i in 0..items.len() {
        leave(alloc, &mut left, &items[i], sigma)?;
    }
    Ok(left)
}

// Adds what is left of a goal: nothing, where it is assigned.
fn leave(alloc: Global, left: &mut GoalList, goal: &Goal, sigma: &Assign) -> Result<(), NoMemory>
    requires { Instantiates sigma.now (GoalIsShaped (goal_of goal.now)) }
    ensures { OnOk result ((more : List LfGoal) × Leaves (assigning sigma.now) (goal_of goal.now ∷ []) more × (left.new ≡ left.old ++ more)) }
{
    match sigma.find(goal.id) {
        Some(_) => Ok(()),
        None => left.push(instantiate_goal(alloc, sigma, goal)?),
    }
}
