//! Small terms, types and shapes.

ghost use Rattle.std.specs.Prelude.{◌≡◌, IfOk, [], ◌∷◌};
ghost use Rattle.lf_definitions.specs.Syntax.{arg, no_args};
ghost use Rattle.lf_terms.specs.Shapes.{simple_type_of};
ghost use Rattle.lf_terms.specs.Terms.{term_of};

use basics::NoMemory;
use lf_terms::{Head, Shape, Shapes, Term, Terms, Ty, Tys};
use std::alloc::Global;

/// The type that is a family without arguments.
pub(crate) fn atom(family: u32) -> Ty {
    Ty {
        binders: Tys::new(),
        family,
        args: Terms::new(),
    }
}

/// The type of what takes one argument of a family and is of another.
pub(crate) fn arrow(alloc: Global, from: u32, to: u32) -> Result<Ty, NoMemory> {
    let mut binders = Vec::new(alloc);
    binders.push(atom(from))?;
    let binders = Tys::from_vec(alloc, binders)?;
    Ok(Ty {
        binders,
        family: to,
        args: Terms::new(),
    })
}

pub(crate) fn bare(head: Head) -> Term {
    Term::At(head, Terms::new())
}

pub(crate) fn one_term(alloc: Global, term: Term) -> Result<Terms, NoMemory>
    ensures { IfOk result (λ terms. terms ≡ arg (term_of term) no_args) }
{
    let mut terms = Vec::new(alloc);
    terms.push(term)?;
    Terms::from_vec(alloc, terms)
}

pub(crate) fn applied(alloc: Global, head: Head, arg: Term) -> Result<Term, NoMemory> {
    let args = one_term(alloc, arg)?;
    Ok(Term::At(head, args))
}

pub(crate) fn one_shape(alloc: Global, shape: Shape) -> Result<Shapes, NoMemory>
    ensures { IfOk result (λ shapes. shapes ≡ simple_type_of shape ∷ []) }
{
    let mut shapes = Vec::new(alloc);
    shapes.push(shape)?;
    Shapes::from_vec(alloc, shapes)
}
