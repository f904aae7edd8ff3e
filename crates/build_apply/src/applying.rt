//! Applications of rules that work backwards.

ghost use Rattle.std.specs.Prelude.{IfOk, OnOk, map};
ghost use Rattle.lf_definitions.specs.GoalLists.{all_goals};
ghost use Rattle.lf_definitions.specs.ShapedGoals.{ShapedGoals};
ghost use Rattle.lf_terms.specs.Targets.{goal_of};
ghost use Rattle.meta_goals.specs.GoalsOf.{goals_of};
ghost use Rattle.applications.specs.Candidates.{candidates};
ghost use Rattle.rule_sets.specs.Refusals.{IsOver};
ghost use Rattle.rule_methods.specs.RuleMethods.{method_of, HasRule, AreApplications};
ghost use Rattle.build_shared.specs.RuleUses.{IsRuleUse, AddsWhatCounts, KeepsShapes, KnowShapes};
ghost use Rattle.build_shared.specs.Seen.{seen_application};
ghost use Rattle.build_apply.specs.Offers.{WorksBackwards};

use crate::constants::{add_constant, add_constants};
use crate::hypotheses::add_hypotheses;
use basics::NoMemory;
use build_shared::first::first_goal;
use build_shared::numbers::next_number;
use build_shared::{App, RuleUse};
use lf_terms::Signature;
use meta_goals::Goals;
use rule_sets::{Builder, Rule, RuleBook};
use std::alloc::Global;

// Adds what comes of a rule.
fn add_rule(
    usage: &RuleUse<'_>,
    rules: &RuleBook,
    rule: &Rule,
    found: &mut Vec<App>,
) -> Result<(), NoMemory>
    requires usage { IsRuleUse usage.now }
    requires builder { WorksBackwards rule.now.builder }
    ensures found { OnOk result (AddsWhatCounts usage.now
        (candidates usage.now.sig.now usage.now.rule (method_of rules.now.lists rule.now) (goal_of usage.now.goal.now) usage.now.first)
        found.old.items found.new.items) }
    ensures shapes { OnOk result (KeepsShapes usage.now found.old.items found.new.items) }
{
    match rule.builder {
        Builder::Apply => add_constant(usage, 0, rule.subject, found),
        Builder::Constructors => match rules.ctors(rule.subject) {
            None => Ok(()),
            Some(constants) => add_constants(usage, constants, found),
        },
        Builder::Assumption => add_hypotheses(usage, true, found),
        Builder::Hyps => add_hypotheses(usage, false, found),
        Builder::Cases | Builder::Forward | Builder::Destruct => unreachable!(),
    }
}

/// The applications of a rule, by its number, to the first goal of a list, in the order of its constants or hypotheses: one for each whose
/// conclusion is unified with the target, with all that this assigns typed, and each entry has the shapes of its goal's context. Where there
/// is no goal there is none. A number past its type is out of memory.
pub fn applications(
    alloc: Global,
    sig: &Signature,
    rules: &RuleBook,
    rule: u32,
    goals: &Goals,
) -> Result<Vec<App>, NoMemory>
    requires over { IsOver sig.now rules.now }
    requires rule { HasRule rules.now rule WorksBackwards }
    requires goals { ShapedGoals sig.now (all_goals (goals_of goals.now)) }
    ensures found { IfOk result (λ apps. AreApplications sig.now rules.now rule (goals_of goals.now) (map seen_application apps.items)) }
    ensures shapes { IfOk result (λ apps. KnowShapes (all_goals (goals_of goals.now)) apps.items) }
{
    sig.is_formed();
    let mut found = Vec::new(alloc);
    let Some(goal) = first_goal(goals) else {
        return Ok(found);
    };
    let first = next_number(goals)?;
    let usage = RuleUse {
        alloc,
        sig,
        goals,
        goal,
        rule,
        first,
    };
    add_rule(&usage, rules, rules.rule(rule), &mut found)?;
    Ok(found)
}
