//! What comes after the alternative of a step.

ghost use Rattle.std.specs.Prelude.{◌≡◌, List, Some, None, map, find, All, IfOk, option_map, if◌then◌else◌};
ghost use Rattle.std.specs.Option.{option_to_list};
ghost use Rattle.lf_definitions.specs.GoalLists.{all_goals};
ghost use Rattle.lf_definitions.specs.ShapedGoals.{ShapedGoals};
ghost use Rattle.lf_definitions.specs.Typing.{LfGoal};
ghost use Rattle.alternatives.specs.Alternatives.{done};
ghost use Rattle.derivations.specs.Derivations.{alternatives_of};
ghost use Rattle.derivations.specs.Replays.{same_labels, same_last, is_step_of};
ghost use Rattle.build_shared.specs.Seen.{seen_label};
ghost use Rattle.meta_goals.specs.Bindings.{assigned_of};
ghost use Rattle.meta_goals.specs.GoalsOf.{goals_of};
ghost use Rattle.meta_goals.specs.Laws.{HaveShapesOf};
ghost use Rattle.goal_book.specs.GoalBooks.{rules_in};
ghost use Rattle.goal_expand.specs.Seen.{seen_last};
ghost use Rattle.proof_replay.specs.Seen.{seen_step};
ghost use Rattle.proof_replay.specs.Naming.{left_by, seen_next};
ghost use Rattle.proof_replay.specs.Turns.{MayBeFollowed};

use crate::naming::named_app;
use crate::next::{Next, after_app};
use crate::same::same_labels;
use crate::step::Step;
use basics::NoMemory;
use goal_book::GoalBook;
use goal_expand::{Last, Normed, normalise};
use meta_goals::Goals;
use std::alloc::Global;

/// What comes after the first alternative of a list that a step is of, if there is one. Labels are compared first, and the lists of other
/// alternatives are not made.
pub(crate) fn next_of(
    alloc: Global,
    book: &GoalBook<'_>,
    goals: &Goals,
    step: &Step,
) -> Result<Option<Next>, NoMemory>
    requires book { MayBeFollowed book.now }
    requires shaped { ShapedGoals book.now.sig (all_goals (goals_of goals.now)) }
    ensures found { IfOk result (λ found. option_map seen_next found ≡ option_map left_by (find (is_step_of (seen_step step.now)) (alternatives_of book.now.sig (rules_in book.now) (goals_of goals.now)))) }
    ensures shapes { IfOk result (λ found. All (λ next. HaveShapesOf (all_goals (goals_of goals.now)) next.build) (option_to_list found)) }
{
    let normed = normalise(alloc, book, goals)?;
    let same = has_labels(step, &normed);
    if !same {
        return Ok(None);
    }
    let closed = normed.closed;
    if closed {
        let found = if_done(&step.last, normed);
        return Ok(found);
    }
    let named = named_app(alloc, book, &normed.goals, &step.last)?;
    match named {
        None => Ok(None),
        Some(app) => {
            let next = after_app(alloc, book.sig(), goals, &normed, &app)?;
            Ok(Some(next))
        }
    }
}

// Whether a normal form has a step's labels.
fn has_labels(step: &Step, normed: &Normed) -> bool
    ensures { result ≡ same_labels (seen_step step.now).norm (map seen_label normed.now.labels.items) }
{
    same_labels(step.norm.as_slice(), normed.labels.as_slice())
}

// What comes after a normal form that was closed, if the last step says so.
fn if_done(last: &Last, normed: Normed) -> Option<Next>
    ensures found { option_map seen_next result ≡ (if same_last (seen_last last.now) done then Some (goals_of normed.goals, map assigned_of normed.build) else None) }
    ensures shapes { (goals : List LfGoal) → HaveShapesOf goals normed.build → All (λ next. HaveShapesOf goals next.build) (option_to_list result) }
{
    match last {
        Last::Done => Some(Next {
            goals: normed.goals,
            build: normed.build,
        }),
        _ => None,
    }
}
