//! The first application that serves.

ghost use Rattle.std.specs.Prelude.{◌≡◌, ◌<◌, ℕ, List, [], ◌∷◌, length, find, All, IfOk, option_map};
ghost use Rattle.std.specs.Option.{option_to_list};
ghost use Rattle.lf_definitions.specs.Typing.{LfGoal};
ghost use Rattle.lf_definitions.specs.GoalLists.{all_goals};
ghost use Rattle.meta_goals.specs.GoalsOf.{goals_of};
ghost use Rattle.build_shared.specs.RuleUses.{KnowShapes};
ghost use Rattle.build_shared.specs.Seen.{seen_application};
ghost use Rattle.goal_book.specs.Rules.{rules_of};
ghost use Rattle.goal_book.specs.Queries.{IsQuery, found_for, app_serves, first_wanted};

use crate::finding::applications;
use crate::query::Query;
use crate::wanted::{Wanted, is_tried, serves};
use basics::NoMemory;
use build_shared::App;

/// The first application that serves of the first of some rules that has one. Later rules are not run.
pub fn first_of(query: &Query<'_>, wanted: Wanted, numbers: &[u32]) -> Result<Option<App>, NoMemory>
    requires query { IsQuery query.now }
    requires numbers { All (λ number. number < length query.now.rules.now.rules) numbers.now }
    ensures found { IfOk result (λ found. option_map seen_application found ≡ first_wanted (found_for query.now) wanted (rules_of query.now.rules.now numbers.now)) }
    ensures shapes { IfOk result (λ found. KnowShapes (all_goals (goals_of query.now.goals.now)) (option_to_list found)) }
{
    for number in numbers {
        let found = first_by(query, wanted, *number)?;
        if let Some(app) = found {
            return Ok(Some(app));
        }
    }
    Ok(None)
}

// The first application of a rule that serves, where the rule is tried.
fn first_by(query: &Query<'_>, wanted: Wanted, number: u32) -> Result<Option<App>, NoMemory>
    requires query { IsQuery query.now }
    requires number { number < length query.now.rules.now.rules }
    ensures found { IfOk result (λ found. option_map seen_application found ≡ first_wanted (found_for query.now) wanted (rules_of query.now.rules.now (number ∷ []))) }
    ensures shapes { IfOk result (λ found. KnowShapes (all_goals (goals_of query.now.goals.now)) (option_to_list found)) }
{
    let rule = query.rules.rule(number);
    if !is_tried(wanted, rule.phase) {
        return Ok(None);
    }
    let apps = applications(query, number)?;
    Ok(first_serving(wanted, apps))
}

// The first of some applications that serves.
fn first_serving(wanted: Wanted, apps: Vec<App>) -> Option<App>
    ensures found { result ≡ find (app_serves wanted) apps.items }
    ensures shapes { (goals : List LfGoal) → KnowShapes goals apps.items → KnowShapes goals (option_to_list result) }
{
    apps.into_iter().find(|app| serves(wanted, app))
}
