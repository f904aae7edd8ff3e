//! Normalisation.

ghost use Rattle.std.specs.Prelude.{◌≡◌, ℕ, suc, IfOk, option_map};
ghost use Rattle.std.specs.Option.{option_to_list};
ghost use Rattle.lf_definitions.specs.GoalLists.{all_goals, next_id};
ghost use Rattle.lf_definitions.specs.ShapedGoals.{ShapedGoals};
ghost use Rattle.meta_goals.specs.GoalsOf.{goals_of};
ghost use Rattle.alternatives.specs.NormalForms.{first_lawful};
ghost use Rattle.build_shared.specs.Seen.{seen_application};
ghost use Rattle.goal_book.specs.GoalBooks.{rules_in};
ghost use Rattle.build_shared.specs.RuleUses.{KnowShapes};
ghost use Rattle.goal_expand.specs.Progress.{IsGiven, IsUnderWay, HasEnded, IsAfterTurn};

use crate::given::Given;
use crate::progress::{Progress, list_after};
use crate::taking::add_step;
use basics::NoMemory;
use build_shared::App;
use goal_book::GoalBook;
use meta_goals::Goals;
use std::alloc::Global;

// How many applications normalisation makes at most.
const MOST_NORMALISING: u32 = 100;

/// What normalisation makes of a list.
pub fn normalised(given: &Given<'_, '_>) -> Result<Progress, NoMemory>
    requires { IsGiven given.now }
    ensures { IfOk result (λ made. HasEnded given.now made) }
{
    let mut made = Progress {
        labels: Vec::new(given.alloc),
        closed: false,
        reached: None,
    };
    for count in 0..MOST_NORMALISING {
        let ended = turn(given, &mut made)?;
        if ended {
            return Ok(made);
        }
    }
    Ok(made)
}

// Makes one more step, if there is one. Whether normalisation has ended with it.
fn turn(given: &Given<'_, '_>, made: &mut Progress) -> Result<bool, NoMemory>
    requires given { IsGiven given.now }
    requires under_way { (left : ℕ) × IsUnderWay given.now (suc left) made.old }
    ensures { IfOk result (λ ended. (left : ℕ) → IsUnderWay given.now (suc left) made.old → IsAfterTurn given.now left ended made.new) }
{
    let goals = list_after(given.goals, &made.reached);
    let found = lawful(given.alloc, given.book, goals)?;
    match found {
        None => Ok(true),
        Some(app) => {
            add_step(given, app, made)?;
            Ok(made.closed)
        }
    }
}

// The application that normalises a list, by one look-up.
fn lawful(alloc: Global, book: &GoalBook<'_>, goals: &Goals) -> Result<Option<App>, NoMemory>
    requires { ShapedGoals book.now.sig (all_goals (goals_of goals.now)) }
    ensures found { IfOk result (λ found. option_map seen_application found ≡ first_lawful book.now.sig (rules_in book.now) (next_id (goals_of goals.now)) (goals_of goals.now)) }
    ensures shapes { IfOk result (λ found. KnowShapes (all_goals (goals_of goals.now)) (option_to_list found)) }
{
    let fitting = book.fitting(alloc, goals)?;
    let found = book.first_lawful(alloc, goals, &fitting)?;
    Ok(found)
}
