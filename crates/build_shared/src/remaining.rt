//! The goals that remain.

ghost use Rattle.std.specs.Prelude.{◌≡◌, List, ◌++◌, [], ◌∷◌, not, IfOk, OnOk};
ghost use Rattle.lf_terms.specs.Targets.{goal_of};
ghost use Rattle.lf_functions.specs.Instances.{instance_of_goal};
ghost use Rattle.applications.specs.Applications.{goals_left, fresh_left};
ghost use Rattle.meta_goals.specs.Bindings.{LfBinding, assigning};
ghost use Rattle.build_shared.specs.Attempts.{among_at, goal_at, candidate_at};
ghost use Rattle.build_shared.specs.Completed.{seen_completed};
ghost use Rattle.build_shared.specs.Whole.{IsWhole};
ghost use Rattle.build_shared.specs.Remaining.{AreFresh, AddsFresh, CanLeave};

use crate::attempt::Attempt;
use crate::completing::Completed;
use crate::whole::Whole;
use basics::NoMemory;
use lf_terms::{Goal, GoalList};
use meta_goals::Assign;
use meta_goals::apply_assign::apply_assign;
use meta_goals::instantiate::instantiate_goal;

/// The list in which entries are tested: all goals that are left, and then the goal itself, instantiated by the entries of the others; and
/// of the new goals those that are proof goals and those that are witnesses.
#[derive(Drop)]
pub struct Remaining {
    pub list: GoalList,
    pub proofs: GoalList,
    pub witnesses: GoalList,
}

// What is left of the fresh goals: all, the proof goals, and the witnesses.
#[derive(Drop)]
struct FreshGoals {
    all: GoalList,
    proofs: GoalList,
    witnesses: GoalList,
}

/// What remains under a whole assignment.
pub fn what_remains(
    attempt: &Attempt<'_>,
    done: &Completed,
    whole: &Whole,
) -> Result<Remaining, NoMemory>
    requires { (bindings : List LfBinding) × IsWhole attempt.now bindings (seen_completed done.now) whole.now }
    ensures list { IfOk result (λ r. r.list
        ≡ (goals_left (among_at attempt.now) (assigning whole.now.all) (among_at attempt.now) ++ done.now.more) ++ instance_of_goal (among_at attempt.now) (assigning whole.now.others) (goal_at attempt.now) ∷ []) }
    ensures proofs { IfOk result (λ r. r.proofs
        ≡ fresh_left (λ mark. mark) (among_at attempt.now) (assigning whole.now.all) (candidate_at attempt.now).opened.fresh (candidate_at attempt.now).are_proofs ++ done.now.more) }
    ensures witnesses { IfOk result (λ r. r.witnesses
        ≡ fresh_left not (among_at attempt.now) (assigning whole.now.all) (candidate_at attempt.now).opened.fresh (candidate_at attempt.now).are_proofs) }
{
    let left = apply_assign(attempt.alloc, attempt.goals, &whole.all)?;
    let fresh = fresh_goals(attempt, done, whole)?;
    let besides = instantiate_goal(attempt.alloc, &whole.others, attempt.goal)?;
    let mut list = left.proofs;
    add_goals(&mut list, &left.witnesses)?;
    add_goals(&mut list, &fresh.all)?;
    add_goals(&mut list, &done.more)?;
    list.push(besides)?;
    let mut proofs = fresh.proofs;
    add_goals(&mut proofs, &done.more)?;
    Ok(Remaining {
        list,
        proofs,
        witnesses: fresh.witnesses,
    })
}

// Adds goals at the end of a list.
fn add_goals(list: &mut GoalList, more: &GoalList) -> Result<(), NoMemory>
    ensures { OnOk result (list.new ≡ list.old ++ more.now) }
{
    let items = more.as_slice();
    for i in 0..items.len() {
        list.push(items[i].copy()?)?;
    }
    Ok(())
}

// What is left of the fresh goals.
fn fresh_goals(
    attempt: &Attempt<'_>,
    done: &Completed,
    whole: &Whole,
) -> Result<FreshGoals, NoMemory>
    requires { (bindings : List LfBinding) × IsWhole attempt.now bindings (seen_completed done.now) whole.now }
    ensures { IfOk result (λ fresh. AreFresh (among_at attempt.now) (assigning whole.now.all) (candidate_at attempt.now).opened.fresh (candidate_at attempt.now).are_proofs fresh) }
{
    let goals = attempt.candidate.opened.fresh.as_slice();
    let marks = attempt.candidate.are_proofs.as_slice();
    let mut fresh = FreshGoals {
        all: GoalList::new(attempt.alloc),
        proofs: GoalList::new(attempt.alloc),
        witnesses: GoalList::new(attempt.alloc),
    };
    for i in 0..goals.len() {
        add_fresh(attempt, &whole.all, &goals[i], marks[i], &mut fresh)?;
    }
    Ok(fresh)
}

// Adds what is left of a fresh goal: nothing, where it is assigned.
fn add_fresh(
    attempt: &Attempt<'_>,
    whole: &Assign,
    goal: &Goal,
    mark: bool,
    fresh: &mut FreshGoals,
) -> Result<(), NoMemory>
    requires { CanLeave (among_at attempt.now) whole.now (goal_of goal.now) }
    ensures { OnOk result (AddsFresh (among_at attempt.now) (assigning whole.now) (goal_of goal.now) mark fresh.old fresh.new) }
{
    match whole.find(goal.id) {
        Some(_) => Ok(()),
        None => {
            let left = instantiate_goal(attempt.alloc, whole, goal)?;
            fresh.all.push(left.copy()?)?;
            if mark {
                fresh.proofs.push(left)
            } else {
                fresh.witnesses.push(left)
            }
        }
    }
}
