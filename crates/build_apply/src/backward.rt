//! Heads that close a goal.

ghost use Rattle.std.specs.Prelude.{◌≡◌, ◌++◌, [], ◌∷◌, IfOk, OnOk};
ghost use Rattle.lf_terms.specs.Targets.{goal_of};
ghost use Rattle.lf_terms.specs.Terms.{head_of};
ghost use Rattle.lf_terms.specs.Types.{type_of};
ghost use Rattle.meta_openings.specs.Results.{opened_type_of};
ghost use Rattle.applications.specs.Candidates.{backward, meets_target};
ghost use Rattle.build_shared.specs.RuleUses.{IsRuleUse, AddsWhatCounts, KeepsShapes};
ghost use Rattle.build_shared.specs.Seen.{seen_label, seen_candidate};
ghost use Rattle.build_apply.specs.Heads.{MayClose};

use basics::{NoMemory, Pairs};
use build_shared::hypotheses::places;
use build_shared::premises::premise_marks;
use build_shared::rule_use::add_if_counts;
use build_shared::{App, Candidate, Label, Outcome, RuleUse};
use lf_terms::{Goal, Head, Ty};
use meta_openings::{Opened, open_args};
use meta_unify::{Equation, Equations};
use std::alloc::Global;

// The equation between what a type is opened to and the target of a goal.
fn target_equation(alloc: Global, opened: &Opened, goal: &Goal) -> Result<Equations, NoMemory>
    ensures { IfOk result (λ equations. equations ≡ meets_target (goal_of goal.now) (opened_type_of opened.now)) }
{
    let left = opened.conclusion.copy()?;
    let right = goal.target.copy()?;
    let mut equations = Equations::new(alloc);
    equations.push(Equation { left, right })?;
    Ok(equations)
}

// A head of a type, with all of the context kept, whose conclusion is to be the target.
fn backward(usage: &RuleUse<'_>, label: Label, head: Head, ty: &Ty) -> Result<Candidate, NoMemory>
    requires usage { IsRuleUse usage.now }
    requires head { MayClose usage.now (head_of head) (type_of ty.now) }
    ensures { IfOk result (λ candidate. seen_candidate candidate ≡ backward (seen_label label) (head_of head) (type_of ty.now) (goal_of usage.now.goal.now) usage.now.first) }
{
    let alloc = usage.alloc;
    let kept = places(alloc, &usage.goal.ctx)?;
    let fixed = Pairs::new(alloc);
    let opened = open_args(alloc, &usage.goal.ctx, &kept, ty, &fixed, usage.first)?;
    let are_proofs = premise_marks(alloc, ty)?;
    let equations = target_equation(alloc, &opened, usage.goal)?;
    Ok(Candidate {
        label,
        head,
        opened,
        are_proofs,
        equations,
        outcome: Outcome::Closes,
    })
}

// Adds what comes of a head of a type, if it counts.
pub fn add_backward(
    usage: &RuleUse<'_>,
    label: Label,
    head: Head,
    ty: &Ty,
    found: &mut Vec<App>,
) -> Result<(), NoMemory>
    requires usage { IsRuleUse usage.now }
    requires head { MayClose usage.now (head_of head) (type_of ty.now) }
    ensures found { OnOk result (AddsWhatCounts usage.now (backward (seen_label label) (head_of head) (type_of ty.now) (goal_of usage.now.goal.now) usage.now.first ∷ [])
        found.old.items found.new.items) }
    ensures shapes { OnOk result (KeepsShapes usage.now found.old.items found.new.items) }
{
    let candidate = backward(usage, label, head, ty)?;
    add_if_counts(usage, candidate, found)
}
