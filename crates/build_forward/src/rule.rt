//! The applications of a rule with the builder `forward` or `destruct`.

ghost use Rattle.std.specs.Prelude.{◌≡◌, ◌++◌, ◌∷◌, [], length, map, replicate, IfOk, OnOk};
ghost use Rattle.lf_definitions.specs.ShapedGoals.{ShapedGoals};
ghost use Rattle.lf_definitions.specs.GoalLists.{all_goals};
ghost use Rattle.meta_goals.specs.GoalsOf.{goals_of};
ghost use Rattle.lf_terms.specs.Targets.{goal_of};
ghost use Rattle.applications.specs.Methods.{goes_forward};
ghost use Rattle.applications.specs.Candidates.{hypotheses_of, are_atomic, candidates};
ghost use Rattle.application_laws.specs.Conditions.{TakesAtoms};
ghost use Rattle.rule_sets.specs.Refusals.{IsOver};
ghost use Rattle.rule_methods.specs.RuleMethods.{HasRule, AreApplications};
ghost use Rattle.build_shared.specs.RuleUses.{IsRuleUse, AddsWhatCounts, KnowShapes};
ghost use Rattle.build_shared.specs.Seen.{seen_hypothesis, seen_application};
ghost use Rattle.build_forward.specs.Onwards.{AddsHypothesis, drops_hypotheses, onward_method, IsOnward, tuple_offers};

use crate::equations::premise_types;
use crate::onward::{Onward, opened_for};
use crate::premises::premises_of;
use crate::refusal::{Sieve, all_numbers};
use crate::tuples::{add_tuple, copied, go_on};
use basics::NoMemory;
use build_shared::constants::{constant_type, is_atomic};
use build_shared::first::first_goal;
use build_shared::hypotheses::hypotheses;
use build_shared::numbers::next_number;
use build_shared::premises::premise_marks;
use build_shared::{App, Hypothesis, RuleUse};
use lf_terms::Signature;
use meta_goals::Goals;
use rule_sets::{Builder, RuleBook};
use std::alloc::Global;

/// The applications of a rule to the first goal of a list, in the lexicographic order of the hypotheses that stand for its premises: for
/// each tuple of hypotheses without binders the constant with these, where it counts. Each entry has the shapes of its goal's context. None
/// where there is no goal. `NoMemory` comes where a growth is refused, or a number is past its type. Tuples that begin with hypotheses for
/// which the first premises are refused are passed over after one unification, and after a walk over two types where the last of these
/// hypotheses has a variable or a constant in the place of another.
pub fn applications(
    alloc: Global,
    sig: &Signature,
    rules: &RuleBook,
    rule: u32,
    goals: &Goals,
) -> Result<Vec<App>, NoMemory>
    requires over { IsOver sig.now rules.now }
    requires rule { HasRule rules.now rule AddsHypothesis }
    requires goals { ShapedGoals sig.now (all_goals (goals_of goals.now)) }
    ensures found { IfOk result (λ apps. AreApplications sig.now rules.now rule (goals_of goals.now) (map seen_application apps.items)) }
    ensures shapes { IfOk result (λ apps. KnowShapes (all_goals (goals_of goals.now)) apps.items) }
{
    sig.is_formed();
    let Some(goal) = first_goal(goals) else {
        return Ok(Vec::new(alloc));
    };
    let first = next_number(goals)?;
    let usage = RuleUse {
        alloc,
        sig,
        goals,
        goal,
        rule,
        first,
    };
    let item = rules.rule(rule);
    let drops = drops_hypotheses(item.builder);
    let found = go_onward(&usage, item.subject, drops)?;
    Ok(found)
}

// Whether a builder drops the hypotheses that it takes.
fn drops_hypotheses(builder: Builder) -> bool
    ensures { result ≡ drops_hypotheses builder }
{
    matches!(builder, Builder::Destruct)
}

// The applications of a rule of the constant to the first goal.
fn go_onward(usage: &RuleUse<'_>, constant: u32, drops: bool) -> Result<Vec<App>, NoMemory>
    requires usage { IsRuleUse usage.now }
    requires atoms { TakesAtoms usage.now.sig.now (goes_forward constant) }
    ensures found { IfOk result (λ found. AddsWhatCounts usage.now
        (candidates usage.now.sig.now usage.now.rule (onward_method drops constant) (goal_of usage.now.goal.now) usage.now.first) [] found.items) }
    ensures shapes { IfOk result (λ found. KnowShapes (all_goals (goals_of usage.now.goals.now)) found.items) }
{
    let Some(ty) = constant_type(usage.sig, constant) else {
        return Ok(Vec::new(usage.alloc));
    };
    let marks = premise_marks(usage.alloc, ty)?;
    let premises = premises_of(usage.alloc, marks.as_slice())?;
    let hyps = atomic_hypotheses(usage)?;
    let onward = Onward {
        usage,
        constant,
        ty,
        marks: marks.as_slice(),
        premises: &premises,
        drops,
        hyps: hyps.as_slice(),
    };
    let found = found_by(&onward)?;
    Ok(found)
}

// What comes of all tuples.
fn found_by(onward: &Onward<'_>) -> Result<Vec<App>, NoMemory>
    requires { IsOnward onward.now }
    ensures found { IfOk result (λ found. AddsWhatCounts onward.now.usage.now (tuple_offers onward.now (length onward.now.premises.now) []) [] found.items) }
    ensures shapes { IfOk result (λ found. KnowShapes (all_goals (goals_of onward.now.usage.now.goals.now)) found.items) }
{
    let alloc = onward.usage.alloc;
    let mut found = Vec::new(alloc);
    let none = Vec::new(alloc);
    let count = onward.premises.len();
    if count == 0 {
        add_tuple(onward, none.as_slice(), &mut found)?;
        return Ok(found);
    }
    if onward.hyps.len() == 0 {
        return Ok(found);
    }
    let tuple = repeated(alloc, &onward.hyps[0], count)?;
    let opened = opened_for(onward, tuple.as_slice())?;
    let premises = premise_types(onward, &opened)?;
    let frozen = all_numbers(alloc, onward.usage.goals)?;
    let sieve = Sieve {
        onward,
        premises: premises.as_slice(),
        frozen: &frozen,
    };
    go_on(&sieve, none.as_slice(), count, &mut found)?;
    Ok(found)
}

// A tuple of one hypothesis alone.
fn repeated(alloc: Global, hyp: &Hypothesis, count: usize) -> Result<Vec<Hypothesis>, NoMemory>
    ensures { IfOk result (λ tuple. map seen_hypothesis tuple.items ≡ replicate count (seen_hypothesis hyp.now)) }
{
    let mut tuple = Vec::new(alloc);
    for i in 0..count {
        let other = copied(hyp)?;
        tuple.push(other)?;
    }
    Ok(tuple)
}

// The goal's hypotheses without binders, oldest first.
fn atomic_hypotheses(usage: &RuleUse<'_>) -> Result<Vec<Hypothesis>, NoMemory>
    requires { IsRuleUse usage.now }
    ensures { IfOk result (λ found. map seen_hypothesis found.items ≡ are_atomic (hypotheses_of usage.now.goal.now.ctx)) }
{
    let all = hypotheses(usage.alloc, &usage.goal.ctx)?;
    let mut found = Vec::new(usage.alloc);
    for i in 0..all.len() {
        add_atomic(&all[i], &mut found)?;
    }
    Ok(found)
}

// Adds a hypothesis, unless it has binders.
fn add_atomic(hyp: &Hypothesis, found: &mut Vec<Hypothesis>) -> Result<(), NoMemory>
    ensures { OnOk result (map seen_hypothesis found.new.items ≡ map seen_hypothesis found.old.items ++ are_atomic (seen_hypothesis hyp.now ∷ [])) }
{
    if is_atomic(&hyp.ty) {
        let other = copied(hyp)?;
        found.push(other)?;
    }
    Ok(())
}
