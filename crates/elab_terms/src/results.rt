//! What an application gives once its arguments are read.

ghost use Rattle.std.specs.Prelude.{◌≡◌, ◌≤◌, length, drop, IfOk};
ghost use Rattle.lf_definitions.specs.Syntax.{shape_of, SimpleType, pis};
ghost use Rattle.lf_definitions.specs.Syntax as syntax;
ghost use Rattle.lf_definitions.specs.Shaping.{Scope, ShapedSpine};
ghost use Rattle.lf_definitions.specs.Substitution.{SubstitutedType};
ghost use Rattle.lf_terms.specs.Putting.{putting, Puts, TypeShaped};
ghost use Rattle.lf_terms.specs.Terms.{head_of, term_of, spine_of};
ghost use Rattle.lf_terms.specs.Shapes.{simple_types_of};
ghost use Rattle.lf_terms.specs.Types.{type_of, types_of};
ghost use Rattle.typing_laws.specs.EtaLaws.{expanded};
ghost use Rattle.elab_terms.specs.Domains.{left_of};

use basics::NoMemory;
use lf_kernel::head_type::HeadType;
use lf_terms::eta::{abstracted, own_variables, raised};
use lf_terms::shape_of::shapes_of;
use lf_terms::subst::{put_all, put_type};
use lf_terms::term::copy;
use lf_terms::{Head, Shape, Term, Terms, Ty, Tys};
use std::alloc::Global;

/// What is left of a type after so many of its binders.
pub fn left_type(
    alloc: Global,
    binders: &Tys,
    family: u32,
    args: &Terms,
    count: usize,
) -> Result<Ty, NoMemory>
    requires { count ≤ length binders.now }
    ensures { IfOk result (λ left. type_of left ≡ pis (drop count binders.now) (syntax.family family args.now)) }
{
    let binders = Tys::from_vec(alloc, copied(alloc, binders.as_slice(), count)?)?;
    let args = args.copy()?;
    Ok(Ty {
        binders,
        family,
        args,
    })
}

// Equal types from a place on, in a vector of their own.
fn copied(alloc: Global, types: &[Ty], count: usize) -> Result<Vec<Ty>, NoMemory>
    requires { count ≤ length (types_of types.now) }
    ensures { IfOk result (λ copies. types_of copies.items ≡ drop count (types_of types.now)) }
{
    let mut copies = Vec::new(alloc);
    for i in count..types.len() {
        copies.push(types[i].copy()?)?;
    }
    Ok(copies)
}

/// The type of a head with its first arguments, which have these shapes.
pub fn type_after(
    alloc: Global,
    found: &HeadType<'_>,
    shapes: &[Shape],
    terms: &[Term],
) -> Result<Ty, NoMemory>
    requires few { length terms.now ≤ length found.now.binders.now }
    requires puts { Puts (spine_of terms.now) (simple_types_of shapes.now) found.now.raise 0 (TypeShaped (left_of found.now (length terms.now))) }
    ensures { IfOk result (λ made. SubstitutedType (putting (spine_of terms.now) found.now.raise 0) (left_of found.now (length terms.now)) (type_of made)) }
{
    let left = left_type(alloc, found.binders, found.family, found.args, terms.len())?;
    put_type(alloc, shapes, terms, found.raise, &left)
}

/// A head with its first arguments, made eta-long at the shape of its type.
pub fn expand(alloc: Global, head: Head, terms: Vec<Term>, made: &Ty) -> Result<Term, NoMemory>
    requires { (Γ : Scope) × (s : SimpleType) × ShapedSpine Γ (spine_of terms.items) s }
    ensures { IfOk result (λ term. term_of term ≡ expanded (head_of head) (spine_of terms.items) (shape_of (type_of made.now))) }
{
    let count = made.binders.len();
    let terms = Terms::from_vec(alloc, terms)?;
    if count == 0 {
        return Ok(Term::At(head, terms));
    }
    if count > u32::MAX as usize {
        return Err(NoMemory);
    }
    let seen = put_all(alloc, &[], &[], count as u32, &terms)?;
    let shapes = shapes_of(alloc, &made.binders)?;
    let own = own_variables(alloc, &shapes)?;
    let args = joined(alloc, &seen, &own)?;
    abstracted(alloc, count, Term::At(raised(head, count)?, args))
}

// The terms of one list and then those of another.
fn joined(alloc: Global, first: &Terms, second: &Terms) -> Result<Terms, NoMemory>
    ensures { IfOk result (λ both. both ≡ syntax.joined first.now second.now) }
{
    let mut both = Vec::new(alloc);
    append(&mut both, first.as_slice())?;
    append(&mut both, second.as_slice())?;
    Terms::from_vec(alloc, both)
}

// Adds copies of terms at the end.
fn append(terms: &mut Vec<Term>, more: &[Term]) -> Result<(), NoMemory>
    ensures { IfOk result (λ _. spine_of terms.new.items ≡ syntax.joined (spine_of terms.old.items) (spine_of more.now)) }
{
    for term in more {
        terms.push(copy(term)?)?;
    }
    Ok(())
}
