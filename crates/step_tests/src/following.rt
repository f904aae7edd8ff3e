//! Lists that alternatives, and heads that are put for goals, lead to.

ghost use Rattle.std.specs.Prelude.{IfOk, IfSome};
ghost use Rattle.lf_definitions.specs.GoalLists.{all_goals};
ghost use Rattle.lf_definitions.specs.ShapedGoals.{ShapedGoals};
ghost use Rattle.meta_goals.specs.GoalsOf.{goals_of};

use crate::putting::list_with;
use basics::NoMemory;
use goal_book::GoalBook;
use goal_expand::alternatives;
use meta_goals::Goals;
use std::alloc::Global;

/// The list that steps lead to, unless there is no such step: each the place of an alternative or, as `2=pb` or `1=?2`, a head that is put for a
/// goal.
pub(crate) fn list_after(
    alloc: Global,
    book: &GoalBook<'_>,
    goals: Goals,
    steps: &str,
) -> Result<Option<Goals>, NoMemory>
    requires { ShapedGoals book.now.sig (all_goals (goals_of goals)) }
    ensures { IfOk result (λ found. IfSome found (λ list. ShapedGoals book.now.sig (all_goals (goals_of list)))) }
{
    let mut list = goals;
    for word in steps.split_whitespace() {
        let next = list_of(alloc, book, &list, word)?;
        match next {
            None => return Ok(None),
            Some(next) => list = next,
        }
    }
    Ok(Some(list))
}

// The list that a step leads to.
fn list_of(
    alloc: Global,
    book: &GoalBook<'_>,
    goals: &Goals,
    step: &str,
) -> Result<Option<Goals>, NoMemory>
    requires { ShapedGoals book.now.sig (all_goals (goals_of goals.now)) }
    ensures { IfOk result (λ found. IfSome found (λ list. ShapedGoals book.now.sig (all_goals (goals_of list)))) }
{
    match step.split_once('=') {
        None => list_at(alloc, book, goals, step.parse().unwrap_or(0)),
        Some((number, word)) => list_with(alloc, book.sig(), goals, number, word),
    }
}

// The list that the alternative of a place leads to.
fn list_at(
    alloc: Global,
    book: &GoalBook<'_>,
    goals: &Goals,
    place: usize,
) -> Result<Option<Goals>, NoMemory>
    requires { ShapedGoals book.now.sig (all_goals (goals_of goals.now)) }
    ensures { IfOk result (λ found. IfSome found (λ list. ShapedGoals book.now.sig (all_goals (goals_of list)))) }
{
    book.is_formed();
    book.sig().is_formed();
    let mut found = alternatives(alloc, book, goals)?;
    if place >= found.len() {
        return Ok(None);
    }
    let next = found.swap_remove(place);
    Ok(Some(next.goals))
}
