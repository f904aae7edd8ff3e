//! Each hypothesis is tried.

ghost use Rattle.std.specs.Prelude.{◌≡◌, ◌∷◌, [], true, IfOk, OnOk};
ghost use Rattle.lf_definitions.specs.GoalLists.{all_goals};
ghost use Rattle.lf_terms.specs.Types.{type_of};
ghost use Rattle.meta_goals.specs.GoalsOf.{goals_of};
ghost use Rattle.applications.specs.Candidates.{is_atomic, hypotheses_of};
ghost use Rattle.build_shared.specs.RuleUses.{AddsWhatCounts, KnowShapes, KeepsShapes};
ghost use Rattle.build_shared.specs.Seen.{seen_hypothesis};
ghost use Rattle.build_cases.specs.Splits.{IsSplitUse, MaySplit, split_offers_each};

use crate::split::{Split, candidate_of};
use basics::NoMemory;
use build_shared::constants::is_atomic;
use build_shared::rule_use::add_if_counts;
use build_shared::{App, Hypothesis};

// The applications that come of the goal's hypotheses, oldest first.
pub fn split_each(split: &Split<'_>) -> Result<Vec<App>, NoMemory>
    requires { IsSplitUse split.now }
    ensures found { IfOk result (λ found. AddsWhatCounts split.now.usage.now (split_offers_each split.now (hypotheses_of split.now.usage.now.goal.now.ctx)) [] found.items) }
    ensures shapes { IfOk result (λ found. KnowShapes (all_goals (goals_of split.now.usage.now.goals.now)) found.items) }
{
    let hyps = split.hyps;
    let mut found = Vec::new(split.usage.alloc);
    for i in 0..hyps.len() {
        split_one(split, &hyps[i], &mut found)?;
    }
    Ok(found)
}

// Adds what comes of a hypothesis. One with binders is passed over.
fn split_one(split: &Split<'_>, hyp: &Hypothesis, found: &mut Vec<App>) -> Result<(), NoMemory>
    requires is_split { IsSplitUse split.now }
    requires may_split { is_atomic (type_of hyp.now.ty) ≡ true → MaySplit split.now (seen_hypothesis hyp.now) }
    ensures found { OnOk result (AddsWhatCounts split.now.usage.now (split_offers_each split.now (seen_hypothesis hyp.now ∷ [])) found.old.items found.new.items) }
    ensures shapes { OnOk result (KeepsShapes split.now.usage.now found.old.items found.new.items) }
{
    if !is_atomic(&hyp.ty) {
        return Ok(());
    }
    let candidate = candidate_of(split, hyp)?;
    add_if_counts(split.usage, candidate, found)?;
    Ok(())
}
