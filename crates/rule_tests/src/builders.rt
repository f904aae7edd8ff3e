//! The applications of a rule, by its builder.

ghost use Rattle.std.specs.Prelude.{◌≡◌, ◌<◌, Some, length, slice_get};
ghost use Rattle.lf_definitions.specs.GoalLists.{all_goals};
ghost use Rattle.lf_definitions.specs.ShapedGoals.{ShapedGoals};
ghost use Rattle.meta_goals.specs.GoalsOf.{goals_of};
ghost use Rattle.rule_sets.specs.Refusals.{IsOver};
ghost use Rattle.rule_methods.specs.RuleMethods.{HasRule};
ghost use Rattle.build_apply.specs.Offers.{WorksBackwards};
ghost use Rattle.build_cases.specs.Splits.{IsCases};
ghost use Rattle.build_forward.specs.Onwards.{AddsHypothesis};

use basics::NoMemory;
use build_shared::App;
use lf_terms::Signature;
use meta_goals::Goals;
use rule_sets::{Builder, RuleBook};
use std::alloc::Global;

/// The applications of a rule, by its number, to the first of some goals.
pub(crate) fn offered(
    alloc: Global,
    sig: &Signature,
    rules: &RuleBook,
    rule: u32,
    goals: &Goals,
) -> Result<Vec<App>, NoMemory>
    requires over { IsOver sig.now rules.now }
    requires rule { rule < length rules.now.rules }
    requires goals { ShapedGoals sig.now (all_goals (goals_of goals.now)) }
{
    match rules.rule(rule).builder {
        Builder::Apply | Builder::Constructors | Builder::Assumption | Builder::Hyps => {
            backward(alloc, sig, rules, rule, goals)
        },
        Builder::Cases => split(alloc, sig, rules, rule, goals),
        Builder::Forward | Builder::Destruct => onward(alloc, sig, rules, rule, goals),
    }
}

fn backward(
    alloc: Global,
    sig: &Signature,
    rules: &RuleBook,
    rule: u32,
    goals: &Goals,
) -> Result<Vec<App>, NoMemory>
    requires over { IsOver sig.now rules.now }
    requires rule { HasRule rules.now rule WorksBackwards }
    requires goals { ShapedGoals sig.now (all_goals (goals_of goals.now)) }
{
    build_apply::applications(alloc, sig, rules, rule, goals)
}

fn split(
    alloc: Global,
    sig: &Signature,
    rules: &RuleBook,
    rule: u32,
    goals: &Goals,
) -> Result<Vec<App>, NoMemory>
    requires over { IsOver sig.now rules.now }
    requires rule { HasRule rules.now rule IsCases }
    requires goals { ShapedGoals sig.now (all_goals (goals_of goals.now)) }
{
    build_cases::applications(alloc, sig, rules, rule, goals)
}

fn onward(
    alloc: Global,
    sig: &Signature,
    rules: &RuleBook,
    rule: u32,
    goals: &Goals,
) -> Result<Vec<App>, NoMemory>
    requires over { IsOver sig.now rules.now }
    requires rule { HasRule rules.now rule AddsHypothesis }
    requires goals { ShapedGoals sig.now (all_goals (goals_of goals.now)) }
{
    build_forward::applications(alloc, sig, rules, rule, goals)
}
