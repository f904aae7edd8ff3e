//! The list of goals after an application.

ghost use Rattle.std.specs.Prelude.{◌≡◌, List, [], ◌∷◌, ◌++◌, All, IfOk, OnOk};
ghost use Rattle.lf_definitions.specs.GoalLists.{all_goals};
ghost use Rattle.lf_definitions.specs.Typing.{LfGoal};
ghost use Rattle.lf_terms.specs.Targets.{goal_of};
ghost use Rattle.applications.specs.Applications.{goals_left};
ghost use Rattle.alternatives.specs.ListsAfter.{with_new, list_after};
ghost use Rattle.alternatives.specs.Taking.{MayBeTaken};
ghost use Rattle.meta_goals.specs.Bindings.{assigning};
ghost use Rattle.meta_goals.specs.GoalsOf.{goals_of};
ghost use Rattle.meta_goals.specs.Laws.{HaveShapesOf};
ghost use Rattle.build_shared.specs.Remaining.{CanLeave};
ghost use Rattle.build_shared.specs.Seen.{seen_application};

use basics::NoMemory;
use build_shared::App;
use lf_terms::{Goal, GoalList, Signature};
use meta_goals::instantiate::instantiate_goal;
use meta_goals::{Assign, Goals};
use std::alloc::Global;

/// The list of goals after an application: its new proofs before the other proofs, its new witnesses after the other witnesses, without the
/// goals that it assigns, and all under what it assigns. A goal that mentions no assigned goal shares what it holds.
pub fn advance(alloc: Global, sig: &Signature, goals: &Goals, app: &App) -> Result<Goals, NoMemory>
    requires may_be_taken { MayBeTaken sig.now (goals_of goals.now) (seen_application app.now) }
    requires shapes { HaveShapesOf (all_goals (with_new (goals_of goals.now) (seen_application app.now))) app.now.assign }
    ensures { IfOk result (λ left. goals_of left ≡ list_after (goals_of goals.now) (seen_application app.now)) }
{
    let mut proofs = GoalList::new(alloc);
    add_left(alloc, &app.assign, &app.proofs, &mut proofs)?;
    add_left(alloc, &app.assign, &goals.proofs, &mut proofs)?;
    let mut witnesses = GoalList::new(alloc);
    add_left(alloc, &app.assign, &goals.witnesses, &mut witnesses)?;
    add_left(alloc, &app.assign, &app.witnesses, &mut witnesses)?;
    Ok(Goals { proofs, witnesses })
}

// Adds what is left of goals.
fn add_left(
    alloc: Global,
    assign: &Assign,
    goals: &GoalList,
    left: &mut GoalList,
) -> Result<(), NoMemory>
    requires { (all : List LfGoal) × All (CanLeave all assign.now) goals.now }
    ensures { OnOk result ((all : List LfGoal) → All (CanLeave all assign.now) goals.now → left.new ≡ left.old ++ goals_left all (assigning assign.now) goals.now) }
{
    let items = goals.as_slice();
    for i in 0..items.len() {
        add_if_left(alloc, assign, &items[i], left)?;
    }
    Ok(())
}

// Adds what is left of a goal: nothing, where it is assigned.
fn add_if_left(
    alloc: Global,
    assign: &Assign,
    goal: &Goal,
    left: &mut GoalList,
) -> Result<(), NoMemory>
    requires { (all : List LfGoal) × CanLeave all assign.now (goal_of goal.now) }
    ensures { OnOk result ((all : List LfGoal) → CanLeave all assign.now (goal_of goal.now) → left.new ≡ left.old ++ goals_left all (assigning assign.now) (goal_of goal.now ∷ [])) }
{
    match assign.find(goal.id) {
        Some(_) => Ok(()),
        None => {
            let next = instantiate_goal(alloc, assign, goal)?;
            left.push(next)?;
            Ok(())
        }
    }
}
