//! Hypotheses that close a goal.

ghost use Rattle.std.specs.Prelude.{[], ◌∷◌, length, OnOk};
ghost use Rattle.lf_terms.specs.Targets.{goal_of};
ghost use Rattle.lf_terms.specs.Types.{type_of};
ghost use Rattle.opening_laws.specs.Openings.{context_variable};
ghost use Rattle.applications.specs.Candidates.{by_hypothesis, hypotheses_of, each};
ghost use Rattle.build_shared.specs.RuleUses.{IsRuleUse, AddsWhatCounts, KeepsShapes};
ghost use Rattle.build_shared.specs.Seen.{seen_hypothesis};
ghost use Rattle.build_apply.specs.Heads.{MayClose};
ghost use Rattle.build_apply.specs.Offers.{of_one_kind};

use crate::backward::add_backward;
use basics::{Ids, NoMemory};
use build_shared::constants::is_atomic;
use build_shared::hypotheses::hypotheses;
use build_shared::{App, Hypothesis, Label, RuleUse};
use meta_openings::variable_at;

// Adds what comes of a hypothesis.
fn add_hypothesis(
    usage: &RuleUse<'_>,
    hypothesis: &Hypothesis,
    found: &mut Vec<App>,
) -> Result<(), NoMemory>
    requires usage { IsRuleUse usage.now }
    requires head { MayClose usage.now (context_variable (length usage.now.goal.now.ctx) hypothesis.now.place) (type_of hypothesis.now.ty) }
    ensures found { OnOk result (AddsWhatCounts usage.now (by_hypothesis usage.now.rule (goal_of usage.now.goal.now) usage.now.first (seen_hypothesis hypothesis.now))
        found.old.items found.new.items) }
    ensures shapes { OnOk result (KeepsShapes usage.now found.old.items found.new.items) }
{
    let head = variable_at(usage.goal.ctx.len(), hypothesis.place as usize)?;
    let mut hyps = Ids::new(usage.alloc);
    hyps.push(hypothesis.place)?;
    let label = Label {
        rule: usage.rule,
        choice: 0,
        hyps,
    };
    add_backward(usage, label, head, &hypothesis.ty, found)
}

// Adds what comes of a hypothesis, if it is of this kind: without binders, or with binders.
fn add_of_kind(
    usage: &RuleUse<'_>,
    atomic: bool,
    hypothesis: &Hypothesis,
    found: &mut Vec<App>,
) -> Result<(), NoMemory>
    requires usage { IsRuleUse usage.now }
    requires head { MayClose usage.now (context_variable (length usage.now.goal.now.ctx) hypothesis.now.place) (type_of hypothesis.now.ty) }
    ensures found { OnOk result (AddsWhatCounts usage.now
        (each (of_one_kind atomic (seen_hypothesis hypothesis.now ∷ [])) (by_hypothesis usage.now.rule (goal_of usage.now.goal.now) usage.now.first))
        found.old.items found.new.items) }
    ensures shapes { OnOk result (KeepsShapes usage.now found.old.items found.new.items) }
{
    if is_atomic(&hypothesis.ty) != atomic {
        return Ok(());
    }
    add_hypothesis(usage, hypothesis, found)
}

// Adds what comes of the hypotheses of this kind, oldest first.
pub fn add_hypotheses(
    usage: &RuleUse<'_>,
    atomic: bool,
    found: &mut Vec<App>,
) -> Result<(), NoMemory>
    requires { IsRuleUse usage.now }
    ensures found { OnOk result (AddsWhatCounts usage.now
        (each (of_one_kind atomic (hypotheses_of usage.now.goal.now.ctx)) (by_hypothesis usage.now.rule (goal_of usage.now.goal.now) usage.now.first))
        found.old.items found.new.items) }
    ensures shapes { OnOk result (KeepsShapes usage.now found.old.items found.new.items) }
{
    let all = hypotheses(usage.alloc, &usage.goal.ctx)?;
    let items = all.as_slice();
    for i in 0..items.len() {
        add_of_kind(usage, atomic, &items[i], found)?;
    }
    Ok(())
}
