//! Normal forms.

ghost use Rattle.std.specs.Prelude.{IfOk};
ghost use Rattle.lf_definitions.specs.GoalLists.{all_goals};
ghost use Rattle.lf_definitions.specs.ShapedGoals.{ShapedGoals};
ghost use Rattle.meta_goals.specs.GoalsOf.{goals_of};
ghost use Rattle.meta_goals.specs.Laws.{HaveShapesOf};
ghost use Rattle.goal_expand.specs.Seen.{IsNormedOf, IsAsMade};

use crate::given::Given;
use crate::normalising::normalised;
use crate::progress::Progress;
use basics::NoMemory;
use build_shared::Label;
use build_shared::numbers::next_number;
use goal_book::GoalBook;
use meta_goals::{Assign, Goals};
use std::alloc::Global;

/// The normal form of a list: the labels of the steps, whether the last of them closed the goal, the list after them, and what they assign
/// to goals of the list that was given.
#[derive(Drop)]
pub struct Normed {
    pub labels: Vec<Label>,
    pub closed: bool,
    pub goals: Goals,
    pub build: Assign,
}

/// The normal form of a list: lawful applications of normalising rules, the first each time, until none is left, the goal is closed, or 100
/// were made. A number past its type is out of memory.
pub fn normalise(alloc: Global, book: &GoalBook<'_>, goals: &Goals) -> Result<Normed, NoMemory>
    requires { ShapedGoals book.now.sig (all_goals (goals_of goals.now)) }
    ensures normal { IfOk result (λ normed. IsNormedOf book.now (goals_of goals.now) normed) }
    ensures shapes { IfOk result (λ normed. HaveShapesOf (all_goals (goals_of goals.now)) normed.build) }
{
    book.is_formed();
    book.sig().is_formed();
    let first = next_number(goals)?;
    let given = Given {
        alloc,
        book,
        goals,
        first,
    };
    let made = normalised(&given)?;
    let normed = normed_of(alloc, goals, made)?;
    Ok(normed)
}

/// What normalisation made of a list, as a normal form. Where no step was made the list is copied.
pub(crate) fn normed_of(alloc: Global, goals: &Goals, made: Progress) -> Result<Normed, NoMemory>
    ensures { IfOk result (λ normed. IsAsMade (goals_of goals.now) made normed) }
{
    let Progress {
        labels,
        closed,
        reached,
    } = made;
    match reached {
        Some(reached) => Ok(Normed {
            labels,
            closed,
            goals: reached.goals,
            build: reached.build,
        }),
        None => {
            let proofs = goals.proofs.copy(alloc)?;
            let witnesses = goals.witnesses.copy(alloc)?;
            Ok(Normed {
                labels,
                closed,
                goals: Goals { proofs, witnesses },
                build: Assign::new(alloc),
            })
        }
    }
}
