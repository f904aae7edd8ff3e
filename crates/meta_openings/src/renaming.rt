//! Types and terms as they are seen among the kept entries.

ghost use Rattle.std.specs.Prelude.{◌≡◌, ◌<◌, length, IfOk};
ghost use Rattle.lf_definitions.specs.Renaming.{rename, rename_spine, rename_type, lifted_by};
ghost use Rattle.lf_terms.specs.Terms.{head_of, term_of};
ghost use Rattle.lf_terms.specs.Types.{type_of};
ghost use Rattle.meta_openings.specs.Counts.{by_counts};

use basics::NoMemory;
use lf_terms::{Body, Head, Term, Terms, Ty, Tys};
use std::alloc::Global;

// A type in so many first entries of a context, under `depth` binders, as it is seen among the kept ones. A
// part that mentions no entry is shared.
pub fn renamed_type(
    alloc: Global,
    before: &[usize],
    count: usize,
    depth: u32,
    ty: &Ty,
) -> Result<Ty, NoMemory>
    requires { count < length before.now }
    ensures { IfOk result (λ r. type_of r ≡ rename_type (lifted_by depth (by_counts before.now count)) (type_of ty.now)) }
{
    if ty.is_within(depth) {
        return ty.copy();
    }
    let items = ty.binders.as_slice();
    let more = items.len();
    if more > (u32::MAX - depth) as usize {
        return Err(NoMemory);
    }
    let mut binders = Vec::with_capacity(alloc, more)?;
    for i in 0..more {
        let inside = depth + i as u32;
        binders.push(renamed_type(alloc, before, count, inside, &items[i])?)?;
    }
    let args = renamed_terms(alloc, before, count, depth + more as u32, &ty.args)?;
    let binders = Tys::from_vec(alloc, binders)?;
    Ok(Ty {
        binders,
        family: ty.family,
        args,
    })
}

#[cycle(renamed)]
fn renamed_terms(
    alloc: Global,
    before: &[usize],
    count: usize,
    depth: u32,
    terms: &Terms,
) -> Result<Terms, NoMemory>
    requires { count < length before.now }
    ensures { IfOk result (λ r. r ≡ rename_spine (lifted_by depth (by_counts before.now count)) terms.now) }
{
    if terms.is_within(depth) {
        return terms.copy();
    }
    let items = terms.as_slice();
    let mut results = Vec::with_capacity(alloc, items.len())?;
    for i in 0..items.len() {
        results.push(renamed_term(alloc, before, count, depth, &items[i])?)?;
    }
    Terms::from_vec(alloc, results)
}

#[cycle(renamed)]
fn renamed_term(
    alloc: Global,
    before: &[usize],
    count: usize,
    depth: u32,
    term: &Term,
) -> Result<Term, NoMemory>
    requires { count < length before.now }
    ensures { IfOk result (λ r. term_of r ≡ rename (lifted_by depth (by_counts before.now count)) (term_of term.now)) }
{
    match term {
        Term::Lam(body) => {
            if depth == u32::MAX {
                return Err(NoMemory);
            }
            let body = renamed_term(alloc, before, count, depth + 1, body.term())?;
            Ok(Term::Lam(Body::new(alloc, body)?))
        }
        Term::At(head, args) => {
            let head = renamed_head(before, count, depth, *head)?;
            let args = renamed_terms(alloc, before, count, depth, args)?;
            Ok(Term::At(head, args))
        }
    }
}

fn renamed_head(before: &[usize], count: usize, depth: u32, head: Head) -> Result<Head, NoMemory>
    requires { count < length before.now }
    ensures { IfOk result (λ r. head_of r ≡ lifted_by depth (by_counts before.now count) (head_of head)) }
{
    match head {
        Head::Bound(number) => {
            if number < depth {
                return Ok(head);
            }
            let outside = (number - depth) as usize;
            let later = before[count].saturating_sub(before[count.saturating_sub(outside)]);
            let Some(number) = outside.saturating_sub(count).checked_add(later) else {
                return Err(NoMemory);
            };
            if number > (u32::MAX - depth) as usize {
                return Err(NoMemory);
            }
            Ok(Head::Bound(depth + number as u32))
        }
        Head::Const(_) | Head::Meta(_) => Ok(head),
    }
}
