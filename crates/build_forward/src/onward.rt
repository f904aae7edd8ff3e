//! What the rule offers for a tuple of hypotheses.

ghost use Rattle.std.specs.Prelude.{◌≡◌, ◌≤◌, map, length, All, IfOk};
ghost use Rattle.lf_terms.specs.Types.{type_of};
ghost use Rattle.meta_openings.specs.Results.{opened_type_of};
ghost use Rattle.applications.specs.Candidates.{paired};
ghost use Rattle.build_shared.specs.Seen.{seen_hypothesis, seen_candidate};
ghost use Rattle.build_forward.specs.Onwards.{IsOnward, IsAtomIn, kept_after, tuple_offer, opening_for};

use crate::equations::equations_for;
use basics::{Ids, NoMemory, Pairs};
use build_shared::hypotheses::places;
use build_shared::kept::places_without;
use build_shared::unfixed::unfixed_marks;
use build_shared::{Candidate, Hypothesis, Label, Outcome, RuleUse};
use lf_terms::{Head, Ty};
use meta_openings::{Opened, open_args};
use std::alloc::Global;

// The use of a rule with its constant, the type of that with its marks and the numbers of its premises, whether the hypotheses that are
// taken are dropped, and the goal's hypotheses without binders.
#[derive(Clone, Copy)]
pub struct Onward<'a> {
    pub usage: &'a RuleUse<'a>,
    pub constant: u32,
    pub ty: &'a Ty,
    pub marks: &'a [bool],
    pub premises: &'a Ids,
    pub drops: bool,
    pub hyps: &'a [Hypothesis],
}

// The candidate for a tuple of hypotheses.
pub fn candidate_of(onward: &Onward<'_>, chosen: &[Hypothesis]) -> Result<Candidate, NoMemory>
    requires onward { IsOnward onward.now }
    requires chosen { All (IsAtomIn onward.now.usage.now) (map seen_hypothesis chosen.now) }
    requires few { length chosen.now ≤ length onward.now.premises.now }
    ensures { IfOk result (λ candidate. seen_candidate candidate ≡ tuple_offer onward.now (map seen_hypothesis chosen.now)) }
{
    let alloc = onward.usage.alloc;
    let fixed = fixed_by(alloc, onward.premises, chosen)?;
    let opened = opened_with(onward, &fixed, chosen)?;
    let are_proofs = unfixed_marks(alloc, &fixed, onward.marks)?;
    let equations = equations_for(onward, &opened, chosen)?;
    let kept = kept_after(onward, chosen)?;
    let hyps = places_chosen(alloc, chosen)?;
    let label = Label {
        rule: onward.usage.rule,
        choice: 0,
        hyps,
    };
    Ok(Candidate {
        label,
        head: Head::Const(onward.constant),
        opened,
        are_proofs,
        equations,
        outcome: Outcome::Adds(kept),
    })
}

// What the constant's type is opened to for a tuple.
pub fn opened_for(onward: &Onward<'_>, chosen: &[Hypothesis]) -> Result<Opened, NoMemory>
    requires onward { IsOnward onward.now }
    requires chosen { All (IsAtomIn onward.now.usage.now) (map seen_hypothesis chosen.now) }
    requires few { length chosen.now ≤ length onward.now.premises.now }
    ensures { IfOk result (λ opened. opened_type_of opened ≡ opening_for onward.now (map seen_hypothesis chosen.now)) }
{
    let fixed = fixed_by(onward.usage.alloc, onward.premises, chosen)?;
    let opened = opened_with(onward, &fixed, chosen)?;
    Ok(opened)
}

// The same, where the premises are fixed to the hypotheses.
fn opened_with(
    onward: &Onward<'_>,
    fixed: &Pairs,
    chosen: &[Hypothesis],
) -> Result<Opened, NoMemory>
    requires onward { IsOnward onward.now }
    requires chosen { All (IsAtomIn onward.now.usage.now) (map seen_hypothesis chosen.now) }
    requires fixed { fixed.now ≡ paired onward.now.premises.now (map seen_hypothesis chosen.now) }
    ensures { IfOk result (λ opened. opened_type_of opened ≡ opening_for onward.now (map seen_hypothesis chosen.now)) }
{
    let usage = onward.usage;
    let kept = places(usage.alloc, &usage.goal.ctx)?;
    let opened = open_args(
        usage.alloc,
        &usage.goal.ctx,
        &kept,
        onward.ty,
        fixed,
        usage.first,
    )?;
    Ok(opened)
}

// Each of the first premises with its hypothesis.
fn fixed_by(alloc: Global, premises: &Ids, chosen: &[Hypothesis]) -> Result<Pairs, NoMemory>
    requires { length chosen.now ≤ length premises.now }
    ensures { IfOk result (λ fixed. fixed ≡ paired premises.now (map seen_hypothesis chosen.now)) }
{
    let items = premises.as_slice();
    let mut fixed = Pairs::new(alloc);
    for i in 0..chosen.len() {
        let premise = items[i];
        let hyp = &chosen[i];
        fixed.push((premise, hyp.place))?;
    }
    Ok(fixed)
}

// The places of the hypotheses of a tuple.
fn places_chosen(alloc: Global, chosen: &[Hypothesis]) -> Result<Ids, NoMemory>
    ensures { IfOk result (λ places. places ≡ map (λ h. h.place) (map seen_hypothesis chosen.now)) }
{
    let mut found = Ids::new(alloc);
    for i in 0..chosen.len() {
        let hyp = &chosen[i];
        found.push(hyp.place)?;
    }
    Ok(found)
}

// The places of the context that are kept once the conclusion is one more hypothesis.
fn kept_after(onward: &Onward<'_>, chosen: &[Hypothesis]) -> Result<Ids, NoMemory>
    ensures { IfOk result (λ kept. kept ≡ kept_after onward.now.drops onward.now.usage.now.goal.now.ctx (map seen_hypothesis chosen.now)) }
{
    let usage = onward.usage;
    if !onward.drops {
        return places(usage.alloc, &usage.goal.ctx);
    }
    let dropped = places_chosen(usage.alloc, chosen)?;
    places_without(usage.alloc, &dropped, &usage.goal.ctx)
}
