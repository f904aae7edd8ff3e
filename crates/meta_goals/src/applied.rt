//! What is put for a metavariable, applied to arguments.

ghost use Rattle.std.specs.Prelude.{◌≡◌, ◌+◌, IsTrue, IfOk, IfSome, length};
ghost use Rattle.lf_definitions.specs.Syntax.{bound, lams, arrows, base};
ghost use Rattle.lf_definitions.specs.Substitution.{stays, Applied};
ghost use Rattle.lf_definitions.specs.Expansion.{eta, own_variables};
ghost use Rattle.lf_terms.specs.Terms.{term_of, spine_of};
ghost use Rattle.lf_terms.specs.Shapes.{simple_type_of, simple_types_of};
ghost use Rattle.meta_goals.specs.Applies.{Applies};

use crate::assign::Entry;
use basics::NoMemory;
use lf_terms::subst::put;
use lf_terms::term::copy;
use lf_terms::{Head, Shape, Term, Terms};
use std::alloc::Global;

/// The body of an entry, with arguments put for the variables of its context. Where these are its own
/// variables, each in its eta-long form, it is the body, shared.
pub fn applied(alloc: Global, entry: &Entry, args: &Terms) -> Result<Term, NoMemory>
    requires { Applies entry.now.shapes (term_of entry.now.body) args.now }
    ensures { IfOk result (λ r. Applied stays (lams (length entry.now.shapes) (term_of entry.now.body)) args.now (term_of r)) }
{
    let shapes = entry.shapes.as_slice();
    if are_own_variables(args.as_slice(), shapes) {
        return copy(&entry.body);
    }
    put(alloc, shapes, args.as_slice(), 0, &entry.body)
}

// Whether terms are the variables of binders of these shapes, each in its eta-long form, as they are seen
// from under the last of the binders.
#[cycle(own_variables)]
fn are_own_variables(terms: &[Term], shapes: &[Shape]) -> bool
    ensures { IsTrue result → spine_of terms.now ≡ own_variables (arrows (simple_types_of shapes.now) base) }
{
    let count = shapes.len();
    if terms.len() != count || count > u32::MAX as usize {
        return false;
    }
    for i in 0..count {
        let number = (count - 1 - i) as u32;
        if !is_variable(&terms[i], number, &shapes[i]) {
            return false;
        }
    }
    true
}

// Whether a term is the eta-long form of a variable.
#[cycle(own_variables)]
fn is_variable(term: &Term, number: u32, shape: &Shape) -> bool
    ensures { IsTrue result → term_of term.now ≡ eta (bound number) (simple_type_of shape.now) }
{
    let inner = shape.args.as_slice();
    match under_lams(term, inner.len()) {
        Some(Term::At(Head::Bound(raised), args)) => {
            is_raised(*raised, number, inner.len()) && are_own_variables(args.as_slice(), inner)
        }
        _ => false,
    }
}

// Whether the first number is the second, seen from under as many more binders.
fn is_raised(raised: u32, number: u32, count: usize) -> bool
    ensures { IsTrue result → raised ≡ number + count }
{
    raised >= number && (raised - number) as usize == count
}

// The body under as many abstractions, if there are as many.
fn under_lams(term: &Term, count: usize) -> Option<&Term>
    ensures { IfSome result (λ body. term_of term.now ≡ lams count (term_of body.now)) }
{
    let mut body = term;
    for _ in 0..count {
        match body {
            Term::Lam(inner) => body = inner.term(),
            Term::At(..) => return None,
        }
    }
    Some(body)
}
