//! The applications of a rule with the builder `cases`.

ghost use Rattle.std.specs.Prelude.{[], map, IfOk};
ghost use Rattle.lf_definitions.specs.ShapedGoals.{ShapedGoals};
ghost use Rattle.lf_definitions.specs.GoalLists.{all_goals};
ghost use Rattle.meta_goals.specs.GoalsOf.{goals_of};
ghost use Rattle.lf_terms.specs.Targets.{goal_of};
ghost use Rattle.applications.specs.Methods.{splits};
ghost use Rattle.applications.specs.Candidates.{candidates};
ghost use Rattle.application_laws.specs.Conditions.{TakesAtoms};
ghost use Rattle.rule_sets.specs.Refusals.{IsOver};
ghost use Rattle.rule_methods.specs.RuleMethods.{place_of_major, HasRule, AreApplications};
ghost use Rattle.build_shared.specs.RuleUses.{IsRuleUse, AddsWhatCounts, KnowShapes};
ghost use Rattle.build_shared.specs.Seen.{seen_application};
ghost use Rattle.build_cases.specs.Splits.{IsCases};

use crate::split::Split;
use crate::trying::split_each;
use basics::NoMemory;
use build_shared::constants::constant_type;
use build_shared::first::first_goal;
use build_shared::hypotheses::hypotheses;
use build_shared::numbers::next_number;
use build_shared::premises::premise_marks;
use build_shared::{App, RuleUse};
use lf_terms::Signature;
use meta_goals::Goals;
use rule_sets::{Rule, RuleBook};
use std::alloc::Global;

/// The applications of a rule to the first goal of a list, in the order of the hypotheses that it splits: for each hypothesis without
/// binders the constant with that as its major argument, where it counts. Each entry has the shapes of its goal's context. None where there
/// is no goal. `NoMemory` comes where a growth is refused, or a number is past its type. The type is opened and unification runs once for
/// each of these hypotheses.
pub fn applications(
    alloc: Global,
    sig: &Signature,
    rules: &RuleBook,
    rule: u32,
    goals: &Goals,
) -> Result<Vec<App>, NoMemory>
    requires over { IsOver sig.now rules.now }
    requires rule { HasRule rules.now rule IsCases }
    requires goals { ShapedGoals sig.now (all_goals (goals_of goals.now)) }
    ensures found { IfOk result (λ apps. AreApplications sig.now rules.now rule (goals_of goals.now) (map seen_application apps.items)) }
    ensures shapes { IfOk result (λ apps. KnowShapes (all_goals (goals_of goals.now)) apps.items) }
{
    sig.is_formed();
    let Some(goal) = first_goal(goals) else {
        return Ok(Vec::new(alloc));
    };
    let first = next_number(goals)?;
    let usage = RuleUse {
        alloc,
        sig,
        goals,
        goal,
        rule,
        first,
    };
    let found = split_by(&usage, rules.rule(rule))?;
    Ok(found)
}

// The applications of a rule to the first goal.
fn split_by(usage: &RuleUse<'_>, rule: &Rule) -> Result<Vec<App>, NoMemory>
    requires usage { IsRuleUse usage.now }
    requires takes_atom { TakesAtoms usage.now.sig.now (splits rule.now.subject (place_of_major rule.now.major)) }
    ensures found { IfOk result (λ found. AddsWhatCounts usage.now
        (candidates usage.now.sig.now usage.now.rule (splits rule.now.subject (place_of_major rule.now.major)) (goal_of usage.now.goal.now) usage.now.first) [] found.items) }
    ensures shapes { IfOk result (λ found. KnowShapes (all_goals (goals_of usage.now.goals.now)) found.items) }
{
    let Some(ty) = constant_type(usage.sig, rule.subject) else {
        return Ok(Vec::new(usage.alloc));
    };
    let marks = premise_marks(usage.alloc, ty)?;
    let hyps = hypotheses(usage.alloc, &usage.goal.ctx)?;
    let split = Split {
        usage,
        constant: rule.subject,
        ty,
        marks: marks.as_slice(),
        major: rule.major.saturating_sub(1),
        hyps: hyps.as_slice(),
    };
    let found = split_each(&split)?;
    Ok(found)
}
