//! Whether a new hypothesis may be added.

ghost use Rattle.std.specs.Prelude.{◌≡◌, ◌<◌, length, All, IfOk};
ghost use Rattle.lf_terms.specs.Targets.{goal_of};
ghost use Rattle.lf_terms.specs.Types.{type_of, atom_of};
ghost use Rattle.applications.specs.Applications.{may_be_added, kept_types_are};
ghost use Rattle.applications.specs.Candidates.{hypotheses_of};
ghost use Rattle.build_shared.specs.Added.{fits_beside, one_test};
ghost use Rattle.build_shared.specs.Seen.{seen_atom, seen_hypothesis};
ghost use Rattle.build_shared.specs.Conditions.{ContextHasShapes};

use crate::dropping::{is_one_of, mentions_none_of, without};
use crate::hypotheses::{Hypothesis, hypotheses, places};
use basics::{Ids, NoMemory};
use lf_terms::same::same_ty;
use lf_terms::{Atom, Goal, Ty, Tys};
use std::alloc::Global;

/// Whether a fact may become one more hypothesis of a goal, with these places of its context kept: no kept hypothesis is the fact, and nothing
/// that is kept mentions a dropped one.
pub fn may_be_added(alloc: Global, goal: &Goal, kept: &Ids, fact: &Atom) -> Result<bool, NoMemory>
    requires { ContextHasShapes goal.now.ctx }
    ensures { IfOk result (λ test. test ≡ may_be_added (goal_of goal.now) kept.now (seen_atom fact.now)) }
{
    let all = places(alloc, &goal.ctx)?;
    let dropped = without(alloc, kept, &all)?;
    let fact = type_of_copy(fact)?;
    if !kept_hypotheses_fit(alloc, goal, kept, &dropped, &fact)? {
        return Ok(false);
    }
    if !mentions_none_of(alloc, goal.ctx.len(), &dropped, &fact)? {
        return Ok(false);
    }
    let target = type_of_copy(&goal.target)?;
    mentions_none_of(alloc, goal.ctx.len(), &dropped, &target)
}

// A family with arguments as a type.
fn type_of_copy(atom: &Atom) -> Result<Ty, NoMemory>
    ensures { IfOk result (λ ty. type_of ty ≡ atom_of atom.now) }
{
    let args = atom.args.copy()?;
    Ok(Ty {
        binders: Tys::new(),
        family: atom.family,
        args,
    })
}

// Whether each kept hypothesis is another type and mentions no dropped one.
fn kept_hypotheses_fit(
    alloc: Global,
    goal: &Goal,
    kept: &Ids,
    dropped: &Ids,
    fact: &Ty,
) -> Result<bool, NoMemory>
    requires context { ContextHasShapes goal.now.ctx }
    requires dropped { All (λ place. place < length goal.now.ctx) dropped.now }
    ensures { IfOk result (λ test. test ≡ kept_types_are (fits_beside goal.now.ctx dropped.now (type_of fact.now)) kept.now (hypotheses_of goal.now.ctx)) }
{
    let found = hypotheses(alloc, &goal.ctx)?;
    let items = found.as_slice();
    for i in 0..items.len() {
        if !hypothesis_fits(alloc, goal, kept, dropped, fact, &items[i])? {
            return Ok(false);
        }
    }
    Ok(true)
}

// The same of one hypothesis, which fits if it is not kept.
fn hypothesis_fits(
    alloc: Global,
    goal: &Goal,
    kept: &Ids,
    dropped: &Ids,
    fact: &Ty,
    hypothesis: &Hypothesis,
) -> Result<bool, NoMemory>
    requires { All (λ place. place < length goal.now.ctx) dropped.now }
    ensures { IfOk result (λ test. test ≡ one_test (fits_beside goal.now.ctx dropped.now (type_of fact.now)) kept.now (seen_hypothesis hypothesis.now)) }
{
    if !is_one_of(kept, hypothesis.place) {
        return Ok(true);
    }
    if same_ty(&hypothesis.ty, fact) {
        return Ok(false);
    }
    mentions_none_of(alloc, goal.ctx.len(), dropped, &hypothesis.ty)
}
