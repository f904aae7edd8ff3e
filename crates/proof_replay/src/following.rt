//! A script, followed from a list of goals.

ghost use Rattle.std.specs.Prelude.{◌≡◌, map, length, IsTrue, IfOk};
ghost use Rattle.lf_definitions.specs.Syntax.{LfType};
ghost use Rattle.lf_definitions.specs.GoalLists.{all_goals};
ghost use Rattle.lf_definitions.specs.ShapedGoals.{ShapedGoals};
ghost use Rattle.meta_goals.specs.GoalsOf.{goals_of};
ghost use Rattle.alternatives.specs.NormalForms.{has_none};
ghost use Rattle.goal_book.specs.GoalBooks.{rules_in};
ghost use Rattle.proof_replay.specs.Seen.{seen_step};
ghost use Rattle.proof_replay.specs.Runs.{IsRun};
ghost use Rattle.proof_replay.specs.Turns.{MayBeFollowed, seen_run, IsTurn, EndsTrail};

use crate::choosing::next_of;
use crate::replayed::Replayed;
use crate::step::Step;
use basics::NoMemory;
use goal_book::GoalBook;
use meta_goals::{Assign, Goals};
use std::alloc::Global;

/// What a script comes to: builds that lead to no goals, that of the first step first, or an answer.
#[derive(Drop)]
pub enum Run {
    Led(Vec<Assign>),
    Refused(Replayed),
}

/// A list that steps have led to, and the builds of these steps.
#[derive(Drop)]
pub struct Trail {
    pub list: Goals,
    pub builds: Vec<Assign>,
}

/// What a script comes to from a list. A number past its type is out of memory.
pub(crate) fn follow(
    alloc: Global,
    book: &GoalBook<'_>,
    list: Goals,
    script: &[Step],
) -> Result<Run, NoMemory>
    requires book { MayBeFollowed book.now }
    requires shaped { ShapedGoals book.now.sig (all_goals (goals_of list)) }
    ensures { IfOk result (λ run. (a : LfType) → IsRun book.now.sig (rules_in book.now) a (goals_of list) 0 (map seen_step script.now) (seen_run run)) }
{
    let mut trail = Trail {
        list,
        builds: Vec::new(alloc),
    };
    for i in 0..script.len() {
        let ended = turn(alloc, book, &script[i], i, &mut trail)?;
        if let Some(answer) = ended {
            return Ok(Run::Refused(answer));
        }
    }
    let run = run_of(trail, script.len())?;
    Ok(run)
}

// Follows the step of this number, or says why it can't be.
fn turn(
    alloc: Global,
    book: &GoalBook<'_>,
    step: &Step,
    number: usize,
    trail: &mut Trail,
) -> Result<Option<Replayed>, NoMemory>
    requires book { MayBeFollowed book.now }
    requires shaped { ShapedGoals book.now.sig (all_goals (goals_of trail.old.list)) }
    ensures { IfOk result (λ ended. IsTurn book.now.sig (rules_in book.now) (seen_step step.now) number trail.old trail.new ended) }
{
    let number = place(number)?;
    if is_empty(&trail.list) {
        return Ok(Some(Replayed::StepsLeft(number)));
    }
    let found = next_of(alloc, book, &trail.list, step)?;
    match found {
        None => Ok(Some(Replayed::NoSuchStep(number))),
        Some(next) => {
            trail.builds.push(next.build)?;
            trail.list = next.goals;
            Ok(None)
        }
    }
}

// What the script came to, after all of its steps, of which there were so many.
fn run_of(trail: Trail, count: usize) -> Result<Run, NoMemory>
    ensures { IfOk result (λ run. EndsTrail trail count run) }
{
    if is_empty(&trail.list) {
        return Ok(Run::Led(trail.builds));
    }
    let count = place(count)?;
    Ok(Run::Refused(Replayed::GoalsLeft(count)))
}

// Whether there is no goal.
fn is_empty(list: &Goals) -> bool
    ensures { result ≡ has_none (all_goals (goals_of list.now)) }
{
    list.proofs.len() == 0 && list.witnesses.len() == 0
}

// A number of a step. A number past its type is out of memory.
fn place(number: usize) -> Result<u32, NoMemory>
    ensures { IfOk result (λ place. place ≡ number) }
{
    if number > u32::MAX as usize {
        return Err(NoMemory);
    }
    Ok(number as u32)
}
