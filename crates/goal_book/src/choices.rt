//! Applications that may be chosen.

ghost use Rattle.std.specs.Prelude.{◌≡◌, ◌<◌, ◌++◌, [], ◌∷◌, length, map, flat_map, IfOk, OnOk};
ghost use Rattle.lf_definitions.specs.GoalLists.{all_goals, next_id};
ghost use Rattle.meta_goals.specs.GoalsOf.{goals_of};
ghost use Rattle.build_shared.specs.RuleUses.{KnowShapes};
ghost use Rattle.goal_book.specs.Rules.{rules_of};
ghost use Rattle.goal_book.specs.Choices.{choices, seen_choice, as_choice};
ghost use Rattle.goal_book.specs.Queries.{IsQuery, AreRules, choices_for};

use crate::finding::applications;
use crate::query::Query;
use crate::ranking::{is_late, percent_of, ranked};
use basics::NoMemory;
use build_shared::App;

/// An application that may be chosen, the percentage to which it is trusted, and whether its rule is a safe one, which is postponed to the
/// choices since it can't be committed.
#[derive(Drop)]
pub struct Choice {
    pub app: App,
    pub percent: u8,
    pub late: bool,
}

/// All applications of those of some rules that may be chosen, by falling percentage, then by rising number of the rule, then in the
/// rule's order.
pub(crate) fn choices(query: &Query<'_>, numbers: &[u32]) -> Result<Vec<Choice>, NoMemory>
    requires query { IsQuery query.now }
    requires numbers { AreRules query.now.rules.now numbers.now }
    ensures choices { IfOk result (λ found. map seen_choice found.items ≡ choices query.now.sig.now (rules_of query.now.rules.now numbers.now) (next_id (goals_of query.now.goals.now)) (goals_of query.now.goals.now)) }
    ensures shapes { IfOk result (λ found. KnowShapes (all_goals (goals_of query.now.goals.now)) (map (λ choice. choice.app) found.items)) }
{
    let ranks = ranked(query.alloc, query.rules, numbers)?;
    let mut found = Vec::new(query.alloc);
    for number in &ranks {
        add_choices(query, *number, &mut found)?;
    }
    Ok(found)
}

// Adds the applications of a rule.
fn add_choices(query: &Query<'_>, number: u32, found: &mut Vec<Choice>) -> Result<(), NoMemory>
    requires query { IsQuery query.now }
    requires number { number < length query.now.rules.now.rules }
    ensures choices { OnOk result (map seen_choice found.new.items ≡ map seen_choice found.old.items ++ flat_map (choices_for query.now) (rules_of query.now.rules.now (number ∷ []))) }
    ensures shapes { OnOk result (KnowShapes (all_goals (goals_of query.now.goals.now)) (map (λ choice. choice.app) found.old.items)
        → KnowShapes (all_goals (goals_of query.now.goals.now)) (map (λ choice. choice.app) found.new.items)) }
{
    let phase = query.rules.rule(number).phase;
    let apps = applications(query, number)?;
    add_each(apps, percent_of(phase), is_late(phase), found)?;
    Ok(())
}

// Adds applications of a rule that has this percentage and was postponed or not.
fn add_each(
    apps: Vec<App>,
    percent: u8,
    late: bool,
    found: &mut Vec<Choice>,
) -> Result<(), NoMemory>
    ensures { OnOk result (found.new.items ≡ found.old.items ++ map (as_choice percent late) apps.items) }
{
    for app in apps {
        found.push(Choice { app, percent, late })?;
    }
    Ok(())
}
