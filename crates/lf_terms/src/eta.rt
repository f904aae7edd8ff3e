//! Eta-long forms.

ghost use Rattle.std.specs.Prelude.{◌≡◌, IfOk};
ghost use Rattle.lf_definitions.specs.Syntax.{arrows, base, lams};
ghost use Rattle.lf_definitions.specs.Renaming.{next_by};
ghost use Rattle.lf_definitions.specs.Expansion.{eta, own_variables};
ghost use Rattle.lf_terms.specs.Shapes.{simple_type_of};
ghost use Rattle.lf_terms.specs.Terms.{head_of, term_of};

use crate::head::Head;
use crate::shape::{Shape, Shapes};
use crate::term::{Body, Term, Terms};
use basics::NoMemory;
use std::alloc::Global;

/// The eta-long form of a head of a shape: the head, applied to the variables of as many abstractions as
/// the shape takes arguments.
#[cycle(eta)]
pub fn eta(alloc: Global, head: Head, shape: &Shape) -> Result<Term, NoMemory>
    ensures { IfOk result (λ term. term_of term ≡ eta (head_of head) (simple_type_of shape.now)) }
{
    let count = shape.args.len();
    let head = raised(head, count)?;
    let args = own_variables(alloc, &shape.args)?;
    abstracted(alloc, count, Term::At(head, args))
}

/// The variables of binders of these shapes, each in its eta-long form, as they are seen from under the
/// last of the binders.
#[cycle(eta)]
pub fn own_variables(alloc: Global, shapes: &Shapes) -> Result<Terms, NoMemory>
    ensures { IfOk result (λ terms. terms ≡ own_variables (arrows shapes.now base)) }
{
    let items = shapes.as_slice();
    let count = items.len();
    if count > u32::MAX as usize {
        return Err(NoMemory);
    }
    let mut terms = Vec::with_capacity(alloc, count)?;
    for i in 0..count {
        let variable = Head::Bound((count - 1 - i) as u32);
        terms.push(eta(alloc, variable, &items[i])?)?;
    }
    Terms::from_vec(alloc, terms)
}

/// A head as it is seen from under as many more binders.
pub fn raised(head: Head, count: usize) -> Result<Head, NoMemory>
    ensures { IfOk result (λ raised. head_of raised ≡ next_by count (head_of head)) }
{
    match head {
        Head::Bound(number) => {
            if count > (u32::MAX - number) as usize {
                return Err(NoMemory);
            }
            Ok(Head::Bound(number + count as u32))
        }
        Head::Const(_) | Head::Meta(_) => Ok(head),
    }
}

/// A body under as many abstractions.
pub fn abstracted(alloc: Global, count: usize, body: Term) -> Result<Term, NoMemory>
    ensures { IfOk result (λ term. term_of term ≡ lams count (term_of body)) }
{
    let mut term = body;
    for _ in 0..count {
        term = Term::Lam(Body::new(alloc, term)?);
    }
    Ok(term)
}
