//! Unification of a candidate's equations.

ghost use Rattle.std.specs.Prelude.{◌≡◌, ◌++◌, ℕ, IfOk, OnOk};
ghost use Rattle.lf_definitions.specs.GoalLists.{ids};
ghost use Rattle.unification.specs.Patterns.{has_number};
ghost use Rattle.applications.specs.Applications.{freezing};
ghost use Rattle.build_shared.specs.Attempts.{goals_at, goal_at, candidate_at, OfferedAt, EndsAt};
ghost use Rattle.build_shared.specs.Solutions.{solution_of};

use crate::attempt::Attempt;
use crate::candidate::Outcome;
use basics::{Ids, NoMemory};
use lf_terms::GoalList;
use meta_goals::Assign;
use meta_unify::{Unified, unify};

/// What the equations of a candidate are unified by, if they are.
pub fn unified(attempt: &Attempt<'_>) -> Result<Option<Assign>, NoMemory>
    requires { OfferedAt attempt.now }
    ensures { IfOk result (λ found. EndsAt attempt.now found) }
{
    let frozen = frozen_numbers(attempt)?;
    let ending = unify(attempt.alloc, &frozen, &attempt.candidate.equations)?;
    Ok(solution(ending))
}

// The assignment of an answer.
fn solution(ending: Unified) -> Option<Assign>
    ensures { result ≡ solution_of ending }
{
    match ending {
        Unified::Solved(assign) => Some(assign),
        Unified::Clash(_) => None,
        Unified::Occurs(_) => None,
        Unified::Escapes(_) => None,
        Unified::Prune(_) => None,
        Unified::NotPattern(_) => None,
    }
}

// The numbers of the goals that are to stay as they are.
fn frozen_numbers(attempt: &Attempt<'_>) -> Result<Ids, NoMemory>
    ensures { IfOk result (λ frozen. (m : ℕ) → freezing (candidate_at attempt.now).outcome (goals_at attempt.now) (goal_at attempt.now) m ≡ has_number frozen m) }
{
    let mut frozen = Ids::new(attempt.alloc);
    match &attempt.candidate.outcome {
        Outcome::Closes => {
            frozen.push(attempt.goal.id)?;
            Ok(frozen)
        }
        Outcome::Adds(_) => {
            add_numbers(&mut frozen, &attempt.goals.proofs)?;
            add_numbers(&mut frozen, &attempt.goals.witnesses)?;
            Ok(frozen)
        }
    }
}

// Adds the numbers of goals.
fn add_numbers(numbers: &mut Ids, goals: &GoalList) -> Result<(), NoMemory>
    ensures { OnOk result (numbers.new ≡ numbers.old ++ ids goals.now) }
{
    let items = goals.as_slice();
    for i in 0..items.len() {
        numbers.push(items[i].id)?;
    }
    Ok(())
}
