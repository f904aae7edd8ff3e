//! Substitution, eta-long forms and copies.

use crate::makers::{applied, arrow, bare, one_shape, one_term};
use basics::NoMemory;
use lf_terms::eta::eta;
use lf_terms::same::{same, same_atom, same_ty, same_tys};
use lf_terms::shape_of::shape_of;
use lf_terms::shaped::shaped;
use lf_terms::subst::subst;
use lf_terms::{Atom, Body, Head, Kind, MetaShapes, Shape, Shapes, Term};
use std::alloc::Global;

/// The shapes of the constants `z : nat` and `good : nat -> o`.
fn constants(alloc: Global) -> Result<Shapes, NoMemory> {
    let mut shapes = Vec::new(alloc);
    shapes.push(base())?;
    let ty = arrow(alloc, 0, 1)?;
    shapes.push(shape_of(alloc, &ty)?)?;
    Shapes::from_vec(alloc, shapes)
}

fn base() -> Shape {
    Shape {
        args: Shapes::new(),
    }
}

/// `put` for the one variable of `term`, where both are shaped.
fn put_one(
    alloc: Global,
    sig: &Shapes,
    shape: Shape,
    put: Term,
    term: &Term,
) -> Result<Option<Term>, NoMemory> {
    let metas = MetaShapes::new(alloc);
    let outer = Shapes::new();
    let base = base();
    if !shaped(sig, &metas, &outer, &put, &shape) {
        return Ok(None);
    }
    let inner = one_shape(alloc, shape)?;
    if !shaped(sig, &metas, &inner, term, &base) {
        return Ok(None);
    }
    let sub = one_term(alloc, put)?;
    let result = subst(alloc, sig, &metas, &outer, &inner, &base, term, &sub)?;
    Ok(Some(result))
}

/// Whether `[x] good x`, put for a variable that is applied to `z`, gives `good z`.
pub(crate) fn goes_on_at_a_replaced_head(alloc: Global) -> Result<bool, NoMemory> {
    let sig = constants(alloc)?;
    let ty = arrow(alloc, 0, 1)?;
    let shape = shape_of(alloc, &ty)?;
    let put = eta(alloc, Head::Const(1), &shape)?;
    let term = applied(alloc, Head::Bound(0), bare(Head::Const(0)))?;
    let wanted = applied(alloc, Head::Const(1), bare(Head::Const(0)))?;
    match put_one(alloc, &sig, shape, put, &term)? {
        None => Ok(false),
        Some(result) => Ok(same(&result, &wanted)),
    }
}

/// Whether the eta-long form of `good` is `[x] good x`.
pub(crate) fn expands(alloc: Global) -> Result<bool, NoMemory> {
    let ty = arrow(alloc, 0, 1)?;
    let shape = shape_of(alloc, &ty)?;
    let found = eta(alloc, Head::Const(1), &shape)?;
    let inside = applied(alloc, Head::Const(1), bare(Head::Bound(0)))?;
    let wanted = Term::Lam(Body::new(alloc, inside)?);
    Ok(same(&found, &wanted))
}

/// Whether copies of a type, of its binders and of an atom equal their sources.
pub(crate) fn copies_are_same(alloc: Global) -> Result<bool, NoMemory> {
    let ty = arrow(alloc, 3, 4)?;
    let kind = Kind {
        binders: ty.binders.copy()?,
    };
    let atom = Atom {
        family: 4,
        args: one_term(alloc, bare(Head::Meta(2)))?,
    };
    Ok(
        same_ty(&ty.copy()?, &ty)
            && same_tys(&kind.copy()?.binders, &ty.binders)
            && same_atom(&atom.copy()?, &atom),
    )
}
