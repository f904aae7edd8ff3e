//! One type, opened in a context of which an entry is dropped. The families are 0 `a`, 1 `b` with an argument in `a`, and `c` and `d` with two.

ghost use Rattle.std.specs.Prelude.{◌≡◌, [], ◌∷◌, IfOk};
ghost use Rattle.lf_definitions.specs.Syntax.{bound, at, arg, no_args, pi, family};
ghost use Rattle.lf_terms.specs.Types.{type_of};
ghost use Rattle.goals_tests.specs.OpenedExample.{example_context, example_type};

use crate::writing::{append_args, append_atom, append_goals};
use basics::{Bytes, Ids, NoMemory, Pairs};
use lf_terms::{Ctx, Head, Term, Terms, Ty, Tys};
use meta_openings::{Opened, open_args};
use std::alloc::Global;

/// The terms, the fresh goals and the conclusion of the type `{a}{a}{b 0}{{a} d 0 2} d 3 2` in the context `{a}{b 0}{a}{{a} c 3 2}`, where the
/// place 2 is dropped and the first argument is fixed to it. The fresh numbers begin with 7.
pub(crate) fn opened_text(alloc: Global) -> Result<Bytes, NoMemory> {
    let mut text = Bytes::new(alloc);
    let opened = opened(alloc)?;
    append_args(alloc, &mut text, &opened.terms)?;
    text.push(b';')?;
    append_goals(alloc, &mut text, &opened.fresh)?;
    text.push(b';')?;
    append_atom(alloc, &mut text, &opened.conclusion)?;
    Ok(text)
}

fn opened(alloc: Global) -> Result<Opened, NoMemory> {
    let ctx = context(alloc)?;
    let kept = kept(alloc)?;
    let ty = opened_type(alloc)?;
    let fixed = fixed(alloc)?;
    open_args(alloc, &ctx, &kept, &ty, &fixed, 7)
}

fn kept(alloc: Global) -> Result<Ids, NoMemory>
    ensures { IfOk result (λ kept. kept ≡ 0 ∷ 1 ∷ 3 ∷ []) }
{
    let mut kept = Ids::new(alloc);
    kept.push(0)?;
    kept.push(1)?;
    kept.push(3)?;
    Ok(kept)
}

fn fixed(alloc: Global) -> Result<Pairs, NoMemory>
    ensures { IfOk result (λ fixed. fixed ≡ (0, 2) ∷ []) }
{
    let mut fixed = Pairs::new(alloc);
    fixed.push((0, 2))?;
    Ok(fixed)
}

fn context(alloc: Global) -> Result<Ctx, NoMemory>
    ensures { IfOk result (λ ctx. ctx ≡ example_context) }
{
    let mut types = Vec::new(alloc);
    types.push(atomic(0, Terms::new()))?;
    types.push(atomic(1, one_variable(alloc, 0)?))?;
    types.push(atomic(0, Terms::new()))?;
    types.push(over_one(alloc, 2, two_variables(alloc, 3, 2)?)?)?;
    Tys::from_vec(alloc, types)
}

fn opened_type(alloc: Global) -> Result<Ty, NoMemory>
    ensures { IfOk result (λ ty. type_of ty ≡ example_type) }
{
    let mut binders = Vec::new(alloc);
    binders.push(atomic(0, Terms::new()))?;
    binders.push(atomic(0, Terms::new()))?;
    binders.push(atomic(1, one_variable(alloc, 0)?))?;
    binders.push(over_one(alloc, 3, two_variables(alloc, 0, 2)?)?)?;
    Ok(Ty {
        binders: Tys::from_vec(alloc, binders)?,
        family: 3,
        args: two_variables(alloc, 3, 2)?,
    })
}

/// A family with arguments, without binders.
fn atomic(number: u32, args: Terms) -> Ty
    ensures { type_of result ≡ family number args }
{
    Ty {
        binders: Tys::new(),
        family: number,
        args,
    }
}

/// A family with arguments over one binder of the family 0.
fn over_one(alloc: Global, number: u32, args: Terms) -> Result<Ty, NoMemory>
    ensures { IfOk result (λ ty. type_of ty ≡ pi (family 0 no_args) (family number args)) }
{
    let mut binders = Vec::new(alloc);
    binders.push(atomic(0, Terms::new()))?;
    Ok(Ty {
        binders: Tys::from_vec(alloc, binders)?,
        family: number,
        args,
    })
}

fn one_variable(alloc: Global, number: u32) -> Result<Terms, NoMemory>
    ensures { IfOk result (λ terms. terms ≡ arg (at (bound number) no_args) no_args) }
{
    let mut terms = Vec::new(alloc);
    terms.push(Term::At(Head::Bound(number), Terms::new()))?;
    Terms::from_vec(alloc, terms)
}

fn two_variables(alloc: Global, first: u32, second: u32) -> Result<Terms, NoMemory>
    ensures { IfOk result (λ terms. terms ≡ arg (at (bound first) no_args) (arg (at (bound second) no_args) no_args)) }
{
    let mut terms = Vec::new(alloc);
    terms.push(Term::At(Head::Bound(first), Terms::new()))?;
    terms.push(Term::At(Head::Bound(second), Terms::new()))?;
    Terms::from_vec(alloc, terms)
}
