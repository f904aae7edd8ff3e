//! The alternatives of a list.

ghost use Rattle.std.specs.Prelude.{◌≡◌, ◌++◌, [], ◌∷◌, map, All, IfOk, OnOk};
ghost use Rattle.lf_definitions.specs.GoalLists.{all_goals, next_id};
ghost use Rattle.lf_definitions.specs.ShapedGoals.{ShapedGoals};
ghost use Rattle.meta_goals.specs.GoalsOf.{goals_of};
ghost use Rattle.meta_goals.specs.Laws.{HaveShapesOf};
ghost use Rattle.alternatives.specs.Alternatives.{alternatives};
ghost use Rattle.goal_book.specs.GoalBooks.{rules_in, fitting_in};
ghost use Rattle.goal_book.specs.Choices.{seen_choice};
ghost use Rattle.goal_expand.specs.Seen.{seen_alternative, HaveShapes, done_with};
ghost use Rattle.goal_expand.specs.Progress.{list_given, goals_made, bindings_reached, IsGiven, IsReachedFrom, MayBeNext, as_taken, committed_by, alternatives_made, choices_made};

use crate::alternative::{Alternative, Last};
use crate::given::Given;
use crate::labels::copied;
use crate::normal::normed_of;
use crate::normalising::normalised;
use crate::one_more::{Taken, alternative_of, chosen_as};
use crate::progress::{Progress, list_after};
use basics::{Ids, NoMemory};
use build_shared::App;
use build_shared::numbers::next_number;
use goal_book::{Choice, GoalBook};
use meta_goals::Goals;
use std::alloc::Global;

/// The alternatives of a list. Where normalisation closed the goal, that is the one. Else the first safe application that assigns no other
/// goal is. Else all applications of unsafe and safe rules are, by falling percentage, then by rising number of the rule, then in the
/// rule's order. A number past its type is out of memory.
pub fn alternatives(
    alloc: Global,
    book: &GoalBook<'_>,
    goals: &Goals,
) -> Result<Vec<Alternative>, NoMemory>
    requires { ShapedGoals book.now.sig (all_goals (goals_of goals.now)) }
    ensures alternatives { IfOk result (λ found. map seen_alternative found.items ≡ alternatives book.now.sig (rules_in book.now) (next_id (goals_of goals.now)) (goals_of goals.now)) }
    ensures shapes { IfOk result (λ found. HaveShapes (goals_of goals.now) found.items) }
{
    book.is_formed();
    book.sig().is_formed();
    let first = next_number(goals)?;
    let given = Given {
        alloc,
        book,
        goals,
        first,
    };
    let made = normalised(&given)?;
    let closed = made.closed;
    if closed {
        let only = done(alloc, goals, made)?;
        return Ok(only);
    }
    let found = expanded(&given, made)?;
    Ok(found)
}

// The one alternative where normalisation closed the goal.
fn done(alloc: Global, goals: &Goals, made: Progress) -> Result<Vec<Alternative>, NoMemory>
    ensures alternatives { IfOk result (λ found. map seen_alternative found.items ≡ done_with (goals_of goals.now) made ∷ []) }
    ensures shapes { IfOk result (λ found. HaveShapesOf (all_goals (goals_of goals.now)) (bindings_reached made.reached) → HaveShapes (goals_of goals.now) found.items) }
{
    let normed = normed_of(alloc, goals, made)?;
    let mut found = Vec::new(alloc);
    found.push(Alternative {
        norm: normed.labels,
        last: Last::Done,
        percent: 100,
        goals: normed.goals,
        build: normed.build,
    })?;
    Ok(found)
}

// The alternatives of a normal form that is not closed: the first safe application, or all choices.
fn expanded(given: &Given<'_, '_>, made: Progress) -> Result<Vec<Alternative>, NoMemory>
    requires given { IsGiven given.now }
    requires reached { IsReachedFrom given.now made.reached }
    ensures alternatives { IfOk result (λ found. map seen_alternative found.items ≡ alternatives_made given.now made) }
    ensures shapes { IfOk result (λ found. HaveShapes (list_given given.now) found.items) }
{
    let goals = list_after(given.goals, &made.reached);
    let fitting = given.book.fitting(given.alloc, goals)?;
    let safe = given.book.first_safe(given.alloc, goals, &fitting)?;
    match safe {
        None => {
            let found = chosen(given, &made, &fitting)?;
            Ok(found)
        }
        Some(app) => {
            let found = committed(given, made, app)?;
            Ok(found)
        }
    }
}

// The one alternative of a safe application.
fn committed(given: &Given<'_, '_>, made: Progress, app: App) -> Result<Vec<Alternative>, NoMemory>
    requires given { IsGiven given.now }
    requires reached { IsReachedFrom given.now made.reached }
    requires next { MayBeNext given.now made.reached app }
    ensures alternatives { IfOk result (λ found. map seen_alternative found.items ≡ committed_by given.now made app ∷ []) }
    ensures shapes { IfOk result (λ found. HaveShapes (list_given given.now) found.items) }
{
    let Progress {
        labels,
        reached,
        ..
    } = made;
    let next = alternative_of(given, &reached, labels, Taken::Committed, 100, app)?;
    let mut found = Vec::new(given.alloc);
    found.push(next)?;
    Ok(found)
}

// The alternatives of all choices.
fn chosen(
    given: &Given<'_, '_>,
    made: &Progress,
    fitting: &Ids,
) -> Result<Vec<Alternative>, NoMemory>
    requires given { IsGiven given.now }
    requires reached { IsReachedFrom given.now made.now.reached }
    requires fitting { fitting.now ≡ fitting_in given.now.book.now (goals_made given.now made.now) }
    ensures alternatives { IfOk result (λ found. map seen_alternative found.items ≡ choices_made given.now made.now) }
    ensures shapes { IfOk result (λ found. HaveShapes (list_given given.now) found.items) }
{
    let goals = list_after(given.goals, &made.reached);
    let offered = given.book.choices(given.alloc, goals, fitting)?;
    let found = each_chosen(given, made, offered)?;
    Ok(found)
}

// The alternative of each choice.
fn each_chosen(
    given: &Given<'_, '_>,
    made: &Progress,
    choices: Vec<Choice>,
) -> Result<Vec<Alternative>, NoMemory>
    requires given { IsGiven given.now }
    requires reached { IsReachedFrom given.now made.now.reached }
    requires choices { All (λ choice. MayBeNext given.now made.now.reached choice.app) choices.items }
    ensures alternatives { IfOk result (λ found. map seen_alternative found.items ≡ map (as_taken given.now made.now) (map seen_choice choices.items)) }
    ensures shapes { IfOk result (λ found. HaveShapes (list_given given.now) found.items) }
{
    let mut found = Vec::new(given.alloc);
    for choice in choices {
        add_choice(given, made, choice, &mut found)?;
    }
    Ok(found)
}

// Adds the alternative of a choice.
fn add_choice(
    given: &Given<'_, '_>,
    made: &Progress,
    choice: Choice,
    found: &mut Vec<Alternative>,
) -> Result<(), NoMemory>
    requires given { IsGiven given.now }
    requires reached { IsReachedFrom given.now made.now.reached }
    requires next { MayBeNext given.now made.now.reached choice.app }
    ensures alternatives { OnOk result (map seen_alternative found.new.items ≡ map seen_alternative found.old.items ++ as_taken given.now made.now (seen_choice choice) ∷ []) }
    ensures shapes { OnOk result (HaveShapes (list_given given.now) found.old.items → HaveShapes (list_given given.now) found.new.items) }
{
    let norm = copied(given.alloc, made.labels.as_slice())?;
    let taken = chosen_as(choice.late);
    let next = alternative_of(
        given,
        &made.reached,
        norm,
        taken,
        choice.percent,
        choice.app,
    )?;
    found.push(next)?;
    Ok(())
}
