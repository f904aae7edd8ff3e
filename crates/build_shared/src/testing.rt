//! Tests of entries.

ghost use Rattle.std.specs.Prelude.{◌≡◌, All, Contains, IfOk};
ghost use Rattle.lf_terms.specs.Targets.{goal_of};
ghost use Rattle.lf_functions.specs.Instances.{instance_of_goal};
ghost use Rattle.applications.specs.Applications.{entries_are_typed, is_typed_entry};
ghost use Rattle.meta_goals.specs.Bindings.{assigning};
ghost use Rattle.build_shared.specs.Attempts.{among_at};
ghost use Rattle.build_shared.specs.Whole.{MayBeTested};
ghost use Rattle.build_shared.specs.Checked.{found_well};

use crate::attempt::Attempt;
use basics::NoMemory;
use lf_kernel::Check;
use lf_kernel::typing::check;
use lf_terms::{Goal, GoalList, Ty, Tys};
use meta_goals::Assign;
use meta_goals::instantiate::instantiate_goal;

/// Whether each goal that is assigned has a body of its type, where both are instantiated, among the goals of a list.
pub fn are_typed(attempt: &Attempt<'_>, whole: &Assign, list: &GoalList) -> Result<bool, NoMemory>
    requires { MayBeTested attempt.now.sig.now (among_at attempt.now) whole.now list.now }
    ensures { IfOk result (λ test. test ≡ entries_are_typed attempt.now.sig.now (among_at attempt.now) (assigning whole.now) list.now (among_at attempt.now)) }
{
    if !each_is_typed(attempt, whole, list, &attempt.goals.proofs)? {
        return Ok(false);
    }
    if !each_is_typed(attempt, whole, list, &attempt.goals.witnesses)? {
        return Ok(false);
    }
    each_is_typed(attempt, whole, list, &attempt.candidate.opened.fresh)
}

// The same of some of the goals. It ends at the first failure.
fn each_is_typed(
    attempt: &Attempt<'_>,
    whole: &Assign,
    list: &GoalList,
    goals: &GoalList,
) -> Result<bool, NoMemory>
    requires may { MayBeTested attempt.now.sig.now (among_at attempt.now) whole.now list.now }
    requires among { All (Contains (among_at attempt.now)) goals.now }
    ensures { IfOk result (λ test. test ≡ entries_are_typed attempt.now.sig.now (among_at attempt.now) (assigning whole.now) list.now goals.now) }
{
    let items = goals.as_slice();
    for i in 0..items.len() {
        if !is_typed(attempt, whole, list, &items[i])? {
            return Ok(false);
        }
    }
    Ok(true)
}

// The same of one goal.
fn is_typed(
    attempt: &Attempt<'_>,
    whole: &Assign,
    list: &GoalList,
    goal: &Goal,
) -> Result<bool, NoMemory>
    requires may { MayBeTested attempt.now.sig.now (among_at attempt.now) whole.now list.now }
    requires among { Contains (among_at attempt.now) (goal_of goal.now) }
    ensures { IfOk result (λ test. test
        ≡ is_typed_entry attempt.now.sig.now list.now (assigning whole.now goal.now.id) (instance_of_goal (among_at attempt.now) (assigning whole.now) (goal_of goal.now))) }
{
    match whole.find(goal.id) {
        None => Ok(true),
        Some(entry) => {
            let instance = instantiate_goal(attempt.alloc, whole, goal)?;
            let target = Ty {
                binders: Tys::new(),
                family: instance.target.family,
                args: instance.target.args,
            };
            let answer = check(
                attempt.alloc,
                attempt.sig,
                list,
                &instance.ctx,
                &entry.body,
                &target,
            )?;
            Ok(is_well(answer))
        }
    }
}

// Whether a check found no failure.
fn is_well(answer: Check) -> bool
    ensures { result ≡ found_well answer }
{
    match answer {
        Check::Well => true,
        Check::Ill(_) => false,
    }
}
