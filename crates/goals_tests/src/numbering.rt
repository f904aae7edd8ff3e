//! Which goals mention a metavariable, and goals with their places as numbers, as text.

ghost use Rattle.std.specs.Prelude.{◌≢◌};

use crate::problems::goal_from;
use crate::writing::append_list;
use basics::{Bytes, NoMemory};
use lf_terms::{Goal, GoalList};
use meta_goals::Goals;
use meta_goals::mentions::mentions;
use meta_goals::rename::rename;
use std::alloc::Global;
use test_rows::append_number;

/// Adds whether a goal mentions a metavariable.
pub(crate) fn append_mentions(
    alloc: Global,
    given: &str,
    text: &mut Bytes,
) -> Result<(), NoMemory> {
    let (goal, number) = given.split_once('|').unwrap_or((given, ""));
    let goal = one_goal(alloc, goal)?;
    if mentions(&goal, number.trim().parse().unwrap_or(0)) {
        text.append(b"it does")
    } else {
        text.append(b"it does not")
    }
}

/// A goal from its number, a colon and its type.
fn one_goal(alloc: Global, text: &str) -> Result<Goal, NoMemory> {
    let (number, ty) = text.split_once(':').unwrap_or(("0", text));
    goal_from(alloc, number, ty)
}

/// Adds two proof goals and a witness, renamed, and the pairs of their numbers.
pub(crate) fn append_renamed(alloc: Global, given: &str, text: &mut Bytes) -> Result<(), NoMemory> {
    let mut parts = given.split(',');
    let first = one_goal(alloc, parts.next().unwrap_or(""))?;
    let second = one_goal(alloc, parts.next().unwrap_or(""))?;
    let third = one_goal(alloc, parts.next().unwrap_or(""))?;
    if first.id == second.id || first.id == third.id || second.id == third.id {
        return text.append(b"one number twice");
    }
    append_three(alloc, first, second, third, text)
}

fn append_three(
    alloc: Global,
    first: Goal,
    second: Goal,
    third: Goal,
    text: &mut Bytes,
) -> Result<(), NoMemory>
    requires first { first.id ≢ second.id }
    requires others { first.id ≢ third.id }
    requires last { second.id ≢ third.id }
{
    let mut proofs = GoalList::new(alloc);
    proofs.push(first)?;
    proofs.push(second)?;
    let mut witnesses = GoalList::new(alloc);
    witnesses.push(third)?;
    let (goals, pairs) = rename(alloc, &Goals { proofs, witnesses })?;
    append_list(alloc, text, &goals)?;
    append_pairs(alloc, text, pairs.as_slice())
}

fn append_pairs(alloc: Global, text: &mut Bytes, pairs: &[(u32, u32)]) -> Result<(), NoMemory> {
    for (old, new) in pairs {
        text.push(b' ')?;
        append_number(alloc, text, *old)?;
        text.push(b'-')?;
        append_number(alloc, text, *new)?;
    }
    Ok(())
}
