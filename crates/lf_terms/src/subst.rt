//! Hereditary substitution.

ghost use Rattle.std.specs.Prelude.{◌≡◌, ◌++◌, IfOk};
ghost use Rattle.lf_definitions.specs.Syntax.{bound, lams};
ghost use Rattle.lf_definitions.specs.Shaping.{Shaped, ShapedList, shapes_in};
ghost use Rattle.lf_definitions.specs.Substitution.{Substituted, SubstitutedSpine, Substitutes, SubstitutedType};
ghost use Rattle.lf_terms.specs.Putting.{putting, PutAt, Puts, TermShaped, ArgsShaped, TypeShaped, HeadShaped, HasLams, TermStaysShaped, ArgsStayShaped, TypeStaysShaped};
ghost use Rattle.lf_terms.specs.Shapes.{simple_type_of, simple_types_of};
ghost use Rattle.lf_terms.specs.Terms.{term_of, spine_of};
ghost use Rattle.lf_terms.specs.Types.{type_of};

use crate::head::Head;
use crate::shape::{MetaShapes, Shape, Shapes};
use crate::term::{Body, Term, Terms};
use crate::ty::{Ty, Tys};
use basics::NoMemory;
use std::alloc::Global;

// What is put for the variables just outside the local binders, as `put` takes it, and where memory comes from.
#[derive(Clone, Copy)]
struct Images<'a> {
    alloc: Global,
    shapes: &'a [Shape],
    sub: &'a [Term],
    by: u32,
}

/// The hereditary substitution of `sub` for the innermost variables of `term`, whose shapes are `inner`.
/// It reads the shapes only to go from a variable to those of its arguments.
pub fn subst(
    alloc: Global,
    sig: &Shapes,
    metas: &MetaShapes,
    outer: &Shapes,
    inner: &Shapes,
    shape: &Shape,
    term: &Term,
    sub: &Terms,
) -> Result<Term, NoMemory>
    requires term_shaped { Shaped (shapes_in sig.now metas.now (outer.now ++ inner.now)) (term_of term.now) (simple_type_of shape.now) }
    requires sub_shaped { ShapedList (shapes_in sig.now metas.now outer.now) sub.now inner.now }
    ensures result { IfOk result (λ r. Substitutes sub.now 0 (term_of term.now) (term_of r)) }
    ensures shaped { IfOk result (λ r. Shaped (shapes_in sig.now metas.now outer.now) (term_of r) (simple_type_of shape.now)) }
{
    let images = Images {
        alloc,
        shapes: inner.as_slice(),
        sub: sub.as_slice(),
        by: 0,
    };
    put_in(&images, 0, term)
}

/// A term with `sub`, whose shapes are `shapes`, put for its innermost variables. The numbers of the other
/// variables fall by as many and rise by `by`. Scopes before and after are asked for in which this is shaped;
/// in any such scopes the result is shaped as the term is.
pub fn put(
    alloc: Global,
    shapes: &[Shape],
    sub: &[Term],
    by: u32,
    term: &Term,
) -> Result<Term, NoMemory>
    requires { Puts (spine_of sub.now) (simple_types_of shapes.now) by 0 (TermShaped (term_of term.now)) }
    ensures result { IfOk result (λ r. Substituted (putting (spine_of sub.now) by 0) (term_of term.now) (term_of r)) }
    ensures shaped { IfOk result (λ r. TermStaysShaped (spine_of sub.now) (simple_types_of shapes.now) by 0 (term_of term.now) (term_of r)) }
{
    let images = Images {
        alloc,
        shapes,
        sub,
        by,
    };
    put_in(&images, 0, term)
}

/// The same in each term of a list, as `put` does it in one.
pub fn put_all(
    alloc: Global,
    shapes: &[Shape],
    sub: &[Term],
    by: u32,
    terms: &Terms,
) -> Result<Terms, NoMemory>
    requires { Puts (spine_of sub.now) (simple_types_of shapes.now) by 0 (ArgsShaped terms.now) }
    ensures result { IfOk result (λ r. SubstitutedSpine (putting (spine_of sub.now) by 0) terms.now r) }
    ensures shaped { IfOk result (λ r. ArgsStayShaped (spine_of sub.now) (simple_types_of shapes.now) by 0 terms.now r) }
{
    let images = Images {
        alloc,
        shapes,
        sub,
        by,
    };
    put_in_all(&images, 0, terms)
}

/// The same in each term of a type, as `put` does it in one.
pub fn put_type(
    alloc: Global,
    shapes: &[Shape],
    sub: &[Term],
    by: u32,
    ty: &Ty,
) -> Result<Ty, NoMemory>
    requires { Puts (spine_of sub.now) (simple_types_of shapes.now) by 0 (TypeShaped (type_of ty.now)) }
    ensures result { IfOk result (λ r. SubstitutedType (putting (spine_of sub.now) by 0) (type_of ty.now) (type_of r)) }
    ensures shaped { IfOk result (λ r. TypeStaysShaped (spine_of sub.now) (simple_types_of shapes.now) by 0 (type_of ty.now) (type_of r)) }
{
    let images = Images {
        alloc,
        shapes,
        sub,
        by,
    };
    put_in_type(&images, 0, ty)
}

// Each binder of a type stands under those before it. A type that mentions none of these variables is shared.
fn put_in_type(images: &Images<'_>, depth: u32, ty: &Ty) -> Result<Ty, NoMemory>
    requires { Puts (spine_of images.now.sub.now) (simple_types_of images.now.shapes.now) images.now.by depth (TypeShaped (type_of ty.now)) }
    ensures { IfOk result (λ r. SubstitutedType (putting (spine_of images.now.sub.now) images.now.by depth) (type_of ty.now) (type_of r)) }
{
    if ty.is_within(depth) {
        return ty.copy();
    }
    let items = ty.binders.as_slice();
    let count = items.len();
    if count > (u32::MAX - depth) as usize {
        return Err(NoMemory);
    }
    let mut binders = Vec::with_capacity(images.alloc, count)?;
    for i in 0..count {
        let inside = depth + i as u32;
        binders.push(put_in_type(images, inside, &items[i])?)?;
    }
    let args = put_in_all(images, depth + count as u32, &ty.args)?;
    let binders = Tys::from_vec(images.alloc, binders)?;
    Ok(Ty {
        binders,
        family: ty.family,
        args,
    })
}

// Puts `sub` for the variables just outside `depth` local binders. The variables outside those rise by `by`.
// A part that mentions none of all these is shared, in one step.
#[cycle(subst)]
fn put_in(images: &Images<'_>, depth: u32, term: &Term) -> Result<Term, NoMemory>
    requires { Puts (spine_of images.now.sub.now) (simple_types_of images.now.shapes.now) images.now.by depth (TermShaped (term_of term.now)) }
    ensures { IfOk result (λ r. Substituted (putting (spine_of images.now.sub.now) images.now.by depth) (term_of term.now) (term_of r)) }
{
    match term {
        Term::Lam(body) => {
            if depth == u32::MAX {
                return Err(NoMemory);
            }
            if body.is_within(depth + 1) {
                return Ok(Term::Lam(body.copy()?));
            }
            let body = put_in(images, depth + 1, body.term())?;
            Ok(Term::Lam(Body::new(images.alloc, body)?))
        }
        Term::At(head, args) => {
            let args = put_in_all(images, depth, args)?;
            match *head {
                Head::Bound(number) => put_at(images, depth, number, args),
                Head::Const(constant) => Ok(Term::At(Head::Const(constant), args)),
                Head::Meta(goal) => Ok(Term::At(Head::Meta(goal), args)),
            }
        }
    }
}

#[cycle(subst)]
fn put_in_all(images: &Images<'_>, depth: u32, terms: &Terms) -> Result<Terms, NoMemory>
    requires { Puts (spine_of images.now.sub.now) (simple_types_of images.now.shapes.now) images.now.by depth (ArgsShaped terms.now) }
    ensures { IfOk result (λ r. SubstitutedSpine (putting (spine_of images.now.sub.now) images.now.by depth) terms.now r) }
{
    if terms.is_within(depth) {
        return terms.copy();
    }
    let items = terms.as_slice();
    let mut results = Vec::with_capacity(images.alloc, items.len())?;
    for i in 0..items.len() {
        results.push(put_in(images, depth, &items[i])?)?;
    }
    Terms::from_vec(images.alloc, results)
}

// A variable, applied to the results of its arguments.
#[cycle(subst)]
fn put_at(images: &Images<'_>, depth: u32, number: u32, args: Terms) -> Result<Term, NoMemory>
    requires { Puts (spine_of images.now.sub.now) (simple_types_of images.now.shapes.now) images.now.by depth (HeadShaped (bound number) args) }
    ensures { IfOk result (λ r. PutAt (putting (spine_of images.now.sub.now) images.now.by depth) (bound number) args (term_of r)) }
{
    if number < depth {
        return Ok(Term::At(Head::Bound(number), args));
    }
    let shapes = images.shapes;
    let sub = images.sub;
    let outside = (number - depth) as usize;
    if outside >= sub.len() {
        let lowered = number - sub.len() as u32;
        if images.by > u32::MAX - lowered {
            return Err(NoMemory);
        }
        return Ok(Term::At(Head::Bound(lowered + images.by), args));
    }
    let place = sub.len() - 1 - outside;
    let shape = &shapes[place];
    let body = stripped(&sub[place], args.len());
    let inner = Images {
        alloc: images.alloc,
        shapes: shape.args.as_slice(),
        sub: args.as_slice(),
        by: depth,
    };
    put_in(&inner, 0, body)
}

// The body under as many abstractions.
fn stripped(term: &Term, count: usize) -> &Term
    requires { HasLams count (term_of term.now) }
    ensures { term_of term.now ≡ lams count (term_of result.now) }
{
    let mut body = term;
    for _ in 0..count {
        match body {
            Term::Lam(inner) => body = inner.term(),
            Term::At(..) => unreachable!(),
        }
    }
    body
}
