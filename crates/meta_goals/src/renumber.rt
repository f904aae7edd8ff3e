//! Terms, types and goals with other numbers for their metavariables.

ghost use Rattle.std.specs.Prelude.{◌≡◌, IfOk};
ghost use Rattle.lf_definitions.specs.Renaming.{rename, rename_spine, rename_type, rename_context};
ghost use Rattle.lf_definitions.specs.Instantiation.{metavariables, rename_goal};
ghost use Rattle.lf_terms.specs.Targets.{goal_of};
ghost use Rattle.lf_terms.specs.Terms.{head_of, term_of};
ghost use Rattle.lf_terms.specs.Types.{type_of};
ghost use Rattle.head_laws.specs.Renumbering.{place_of_number};

use crate::places::Places;
use basics::NoMemory;
use lf_terms::term::copy;
use lf_terms::{Atom, Body, Goal, Head, Term, Terms, Ty, Tys};
use std::alloc::Global;

// A goal with places for numbers. Parts without metavariables are shared.
pub(crate) fn renumbered_goal(alloc: Global, places: &Places, goal: &Goal) -> Result<Goal, NoMemory>
    ensures { IfOk result (λ r. goal_of r ≡ rename_goal (place_of_number places.now) (goal_of goal.now)) }
{
    let ctx = renumbered_types(alloc, places, &goal.ctx)?;
    let args = renumbered_terms(alloc, places, &goal.target.args)?;
    Ok(Goal {
        id: places.find(goal.id),
        ctx,
        target: Atom {
            family: goal.target.family,
            args,
        },
    })
}

#[cycle(renumbered_type)]
fn renumbered_type(alloc: Global, places: &Places, ty: &Ty) -> Result<Ty, NoMemory>
    ensures { IfOk result (λ r. type_of r ≡ rename_type (metavariables (place_of_number places.now)) (type_of ty.now)) }
{
    let binders = renumbered_types(alloc, places, &ty.binders)?;
    let args = renumbered_terms(alloc, places, &ty.args)?;
    Ok(Ty {
        binders,
        family: ty.family,
        args,
    })
}

#[cycle(renumbered_type)]
fn renumbered_types(alloc: Global, places: &Places, types: &Tys) -> Result<Tys, NoMemory>
    ensures { IfOk result (λ r. r ≡ rename_context (metavariables (place_of_number places.now)) types.now) }
{
    if !types.has_metas() {
        return types.copy();
    }
    let items = types.as_slice();
    let mut results = Vec::with_capacity(alloc, items.len())?;
    for i in 0..items.len() {
        results.push(renumbered_type(alloc, places, &items[i])?)?;
    }
    Tys::from_vec(alloc, results)
}

#[cycle(renumbered_term)]
fn renumbered_term(alloc: Global, places: &Places, term: &Term) -> Result<Term, NoMemory>
    ensures { IfOk result (λ r. term_of r ≡ rename (metavariables (place_of_number places.now)) (term_of term.now)) }
{
    if !term.has_metas() {
        return copy(term);
    }
    match term {
        Term::Lam(body) => {
            let inside = renumbered_term(alloc, places, body.term())?;
            Ok(Term::Lam(Body::new(alloc, inside)?))
        }
        Term::At(head, args) => {
            let args = renumbered_terms(alloc, places, args)?;
            Ok(Term::At(renumbered_head(places, *head), args))
        }
    }
}

#[cycle(renumbered_term)]
fn renumbered_terms(alloc: Global, places: &Places, terms: &Terms) -> Result<Terms, NoMemory>
    ensures { IfOk result (λ r. r ≡ rename_spine (metavariables (place_of_number places.now)) terms.now) }
{
    if !terms.has_metas() {
        return terms.copy();
    }
    let items = terms.as_slice();
    let mut results = Vec::with_capacity(alloc, items.len())?;
    for i in 0..items.len() {
        results.push(renumbered_term(alloc, places, &items[i])?)?;
    }
    Terms::from_vec(alloc, results)
}

fn renumbered_head(places: &Places, head: Head) -> Head
    ensures { head_of result ≡ metavariables (place_of_number places.now) (head_of head) }
{
    match head {
        Head::Meta(number) => Head::Meta(places.find(number)),
        Head::Bound(_) | Head::Const(_) => head,
    }
}
