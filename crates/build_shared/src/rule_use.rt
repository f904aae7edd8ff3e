//! Uses of rules.

ghost use Rattle.std.specs.Prelude.{[], ◌∷◌, OnOk};
ghost use Rattle.lf_definitions.specs.GoalLists.{all_goals};
ghost use Rattle.lf_terms.specs.Targets.{goal_of};
ghost use Rattle.meta_goals.specs.GoalsOf.{goals_of};
ghost use Rattle.application_laws.specs.Conditions.{MayBeUsed};
ghost use Rattle.build_shared.specs.RuleUses.{IsRuleUse, AddsWhatCounts, KeepsShapes};
ghost use Rattle.build_shared.specs.Seen.{seen_candidate};

use crate::app::App;
use crate::candidate::Candidate;
use crate::counting::application_of;
use basics::NoMemory;
use lf_terms::{Goal, Signature};
use meta_goals::Goals;
use std::alloc::Global;

/// The use of a rule, by its number, for the first goal of a list, with fresh numbers from `first` on, over a signature, and where memory
/// comes from.
#[derive(Clone, Copy)]
pub struct RuleUse<'a> {
    pub alloc: Global,
    pub sig: &'a Signature,
    pub goals: &'a Goals,
    pub goal: &'a Goal,
    pub rule: u32,
    pub first: u32,
}

/// Adds what comes of a candidate to what was found before, if it counts.
pub fn add_if_counts(
    usage: &RuleUse<'_>,
    candidate: Candidate,
    found: &mut Vec<App>,
) -> Result<(), NoMemory>
    requires usage { IsRuleUse usage.now }
    requires candidate { MayBeUsed usage.now.sig.now (all_goals (goals_of usage.now.goals.now)) usage.now.first (goal_of usage.now.goal.now) (seen_candidate candidate) }
    ensures found { OnOk result (AddsWhatCounts usage.now (seen_candidate candidate ∷ []) found.old.items found.new.items) }
    ensures shapes { OnOk result (KeepsShapes usage.now found.old.items found.new.items) }
{
    let answer = application_of(usage.alloc, usage.sig, usage.goals, usage.first, candidate)?;
    match answer {
        None => Ok(()),
        Some(app) => {
            found.push(app)?;
            Ok(())
        }
    }
}
