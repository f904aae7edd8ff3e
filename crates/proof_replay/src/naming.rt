//! The application that a last step names.

ghost use Rattle.std.specs.Prelude.{◌≡◌, List, [], ◌∷◌, Some, None, map, find, IfOk, option_map, if◌then◌else◌};
ghost use Rattle.std.specs.Option.{option_to_list};
ghost use Rattle.lf_definitions.specs.GoalLists.{all_goals};
ghost use Rattle.lf_definitions.specs.ShapedGoals.{ShapedGoals};
ghost use Rattle.lf_definitions.specs.Typing.{LfGoal};
ghost use Rattle.meta_goals.specs.GoalsOf.{goals_of};
ghost use Rattle.alternatives.specs.Alternatives.{safely};
ghost use Rattle.build_shared.specs.RuleUses.{KnowShapes};
ghost use Rattle.build_shared.specs.Seen.{seen_label, seen_application};
ghost use Rattle.derivations.specs.Replays.{same_last};
ghost use Rattle.goal_book.specs.GoalBooks.{rules_in};
ghost use Rattle.goal_book.specs.Choices.{seen_choice};
ghost use Rattle.goal_expand.specs.Seen.{seen_last};
ghost use Rattle.proof_replay.specs.Naming.{named_in};

use crate::same::same_label;
use basics::NoMemory;
use build_shared::App;
use goal_book::{Choice, GoalBook};
use goal_expand::Last;
use meta_goals::Goals;
use std::alloc::Global;

/// The application to a normal form that a last step names, if there is one: the safe one, or the first choice of this label. No list is
/// made of the others.
pub(crate) fn named_app(
    alloc: Global,
    book: &GoalBook<'_>,
    goals: &Goals,
    last: &Last,
) -> Result<Option<App>, NoMemory>
    requires { ShapedGoals book.now.sig (all_goals (goals_of goals.now)) }
    ensures found { IfOk result (λ found. option_map seen_application found ≡ named_in book.now.sig (rules_in book.now) (goals_of goals.now) (seen_last last.now)) }
    ensures shapes { IfOk result (λ found. KnowShapes (all_goals (goals_of goals.now)) (option_to_list found)) }
{
    let fitting = book.fitting(alloc, goals)?;
    let safe = book.first_safe(alloc, goals, &fitting)?;
    match safe {
        Some(app) => {
            let found = if_named(last, app);
            Ok(found)
        }
        None => {
            let choices = book.choices(alloc, goals, &fitting)?;
            let found = first_named(last, choices);
            Ok(found)
        }
    }
}

// A safe application, if it is named.
fn if_named(last: &Last, app: App) -> Option<App>
    ensures found { option_map seen_application result ≡ (if same_last (seen_last last.now) (safely (seen_label app.label)) then Some (seen_application app) else None) }
    ensures shapes { (goals : List LfGoal) → KnowShapes goals (app ∷ []) → KnowShapes goals (option_to_list result) }
{
    if is_safe(last, &app) {
        return Some(app);
    }
    None
}

// The first choice that is named.
fn first_named(last: &Last, choices: Vec<Choice>) -> Option<App>
    ensures found { option_map seen_application result ≡ option_map (λ c. c.application) (find (λ c. same_last (seen_last last.now) c.last) (map seen_choice choices.items)) }
    ensures shapes { (goals : List LfGoal) → KnowShapes goals (map (λ choice. choice.app) choices.items) → KnowShapes goals (option_to_list result) }
{
    for choice in choices {
        if is_choice(last, &choice) {
            return Some(choice.app);
        }
    }
    None
}

// Whether a last step is the safe one of an application.
fn is_safe(last: &Last, app: &App) -> bool
    ensures { result ≡ same_last (seen_last last.now) (safely (seen_label app.now.label)) }
{
    match last {
        Last::Safe(label) => same_label(label, &app.label),
        _ => false,
    }
}

// Whether a last step is that of a choice.
fn is_choice(last: &Last, choice: &Choice) -> bool
    ensures { result ≡ same_last (seen_last last.now) (seen_choice choice.now).last }
{
    match last {
        Last::Unsafe(label) => !choice.late && same_label(label, &choice.app.label),
        Last::Late(label) => choice.late && same_label(label, &choice.app.label),
        _ => false,
    }
}
