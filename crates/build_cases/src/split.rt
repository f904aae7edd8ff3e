//! What the rule offers for a hypothesis.

ghost use Rattle.std.specs.Prelude.{◌≡◌, ◌∷◌, [], true, IfOk};
ghost use Rattle.lf_definitions.specs.Syntax.{conclusion_atom};
ghost use Rattle.lf_terms.specs.Targets.{goal_of};
ghost use Rattle.lf_terms.specs.Types.{type_of};
ghost use Rattle.meta_openings.specs.Results.{opened_type_of};
ghost use Rattle.applications.specs.Candidates.{argument_type, meets_target};
ghost use Rattle.application_laws.specs.Conditions.{HasAtomAt};
ghost use Rattle.build_shared.specs.ArgumentTypes.{HasShapedTerms};
ghost use Rattle.build_shared.specs.Seen.{seen_label, seen_hypothesis, seen_candidate};
ghost use Rattle.build_cases.specs.Splits.{IsSplitUse, MaySplit, split_offers};

use crate::dropping::kept_places;
use basics::{Ids, NoMemory, Pairs};
use build_shared::arguments::argument_type;
use build_shared::unfixed::unfixed_marks;
use build_shared::{Candidate, Hypothesis, Label, Outcome, RuleUse};
use lf_terms::{Atom, Head, Ty};
use meta_openings::{Opened, open_args};
use meta_unify::{Equation, Equations};

// The use of a rule with its constant, the type of that with its premises, the place of the major argument, and the goal's hypotheses.
#[derive(Clone, Copy)]
pub struct Split<'a> {
    pub usage: &'a RuleUse<'a>,
    pub constant: u32,
    pub ty: &'a Ty,
    pub marks: &'a [bool],
    pub major: u32,
    pub hyps: &'a [Hypothesis],
}

// The candidate for a hypothesis without binders.
pub fn candidate_of(split: &Split<'_>, hyp: &Hypothesis) -> Result<Candidate, NoMemory>
    requires is_split { IsSplitUse split.now }
    requires may_split { MaySplit split.now (seen_hypothesis hyp.now) }
    ensures { IfOk result (λ candidate. split_offers split.now (seen_hypothesis hyp.now) ≡ seen_candidate candidate ∷ []) }
{
    let alloc = split.usage.alloc;
    let kept = kept_places(split, hyp.place)?;
    let mut fixed = Pairs::new(alloc);
    fixed.push((split.major, hyp.place))?;
    let ctx = &split.usage.goal.ctx;
    let opened = open_args(alloc, ctx, &kept, split.ty, &fixed, split.usage.first)?;
    let are_proofs = unfixed_marks(alloc, &fixed, split.marks)?;
    let equations = equations_of(split, hyp, &opened)?;
    let label = label_of(split, hyp.place)?;
    Ok(Candidate {
        label,
        head: Head::Const(split.constant),
        opened,
        are_proofs,
        equations,
        outcome: Outcome::Closes,
    })
}

fn label_of(split: &Split<'_>, place: u32) -> Result<Label, NoMemory>
    ensures { IfOk result (λ label. seen_label label ≡ record { of_rule = split.now.usage.now.rule; choice = 0; hypotheses = place ∷ [] }) }
{
    let mut hyps = Ids::new(split.usage.alloc);
    hyps.push(place)?;
    Ok(Label {
        rule: split.usage.rule,
        choice: 0,
        hyps,
    })
}

// The major argument has the hypothesis's type, and the conclusion is the target.
fn equations_of(split: &Split<'_>, hyp: &Hypothesis, opened: &Opened) -> Result<Equations, NoMemory>
    requires shaped { HasShapedTerms (type_of split.now.ty.now) opened.now.terms }
    requires atomic { HasAtomAt (type_of split.now.ty.now) split.now.major }
    ensures { IfOk result (λ equations. equations
        ≡ (argument_type (type_of split.now.ty.now) (opened_type_of opened.now) split.now.major, conclusion_atom (type_of hyp.now.ty)) ∷ meets_target (goal_of split.now.usage.now.goal.now) (opened_type_of opened.now)) }
{
    let argument = argument_type(split.usage.alloc, split.ty, opened, split.major as usize)?;
    let args = hyp.ty.args.copy()?;
    let end = opened.conclusion.copy()?;
    let target = split.usage.goal.target.copy()?;
    let family = hyp.ty.family;
    let first = Equation {
        left: argument,
        right: Atom { family, args },
    };
    let second = Equation {
        left: end,
        right: target,
    };
    let mut equations = Equations::new(split.usage.alloc);
    equations.push(first)?;
    equations.push(second)?;
    Ok(equations)
}
