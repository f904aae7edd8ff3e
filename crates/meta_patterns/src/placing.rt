//! A term over the variables of a pattern, as the body that the pattern's metavariable becomes.

ghost use Rattle.std.specs.Prelude.{◌≡◌, IfOk};
ghost use Rattle.lf_definitions.specs.Syntax.{bound};
ghost use Rattle.lf_definitions.specs.Renaming.{rename, rename_spine, lifted_by};
ghost use Rattle.lf_terms.specs.Terms.{head_of, term_of};
ghost use Rattle.unification.specs.Patterns.{placed};

use crate::pattern::Pattern;
use basics::NoMemory;
use lf_terms::term::copy;
use lf_terms::{Body, Head, Term, Terms};
use std::alloc::Global;

impl Pattern {
    ghost use Rattle.std.specs.Prelude.{◌≡◌, IfOk, true};
    ghost use Rattle.lf_definitions.specs.Renaming.{rename};
    ghost use Rattle.lf_terms.specs.Terms.{term_of};
    ghost use Rattle.unification.specs.Patterns.{is_over, placed};

    /// A term in which no other variables occur, with each renamed to the entry at whose place it stands. Where these are all variables of a context in order, that
    /// is the term, in one step. Elsewhere a part with no variable from outside it is shared.
    pub fn placed(&self, alloc: Global, term: &Term) -> Result<Term, NoMemory>
        requires { is_over self.now (term_of term.now) ≡ true }
        ensures { IfOk result (λ renamed. term_of renamed ≡ rename (placed self.now) (term_of term.now)) }
    {
        if self.is_own() {
            return copy(term);
        }
        renamed(alloc, self, 0, term)
    }
}

// The number of the entry that a variable is renamed to. One that is none of these does not occur.
fn entry(pattern: &Pattern, number: u32) -> u32
    ensures { placed pattern.now (bound number) ≡ bound result }
{
    match pattern.placed_number(number) {
        None => 0,
        Some(entry) => entry,
    }
}

// A head under local binders.
fn renamed_head(pattern: &Pattern, depth: u32, head: Head) -> Result<Head, NoMemory>
    ensures { IfOk result (λ renamed. head_of renamed ≡ lifted_by depth (placed pattern.now) (head_of head)) }
{
    match head {
        Head::Bound(number) => {
            if number < depth {
                return Ok(head);
            }
            let entry = entry(pattern, number - depth);
            if entry > u32::MAX - depth {
                return Err(NoMemory);
            }
            Ok(Head::Bound(depth + entry))
        }
        Head::Const(_) | Head::Meta(_) => Ok(head),
    }
}

#[cycle(renamed)]
fn renamed(alloc: Global, pattern: &Pattern, depth: u32, term: &Term) -> Result<Term, NoMemory>
    ensures { IfOk result (λ renamed. term_of renamed ≡ rename (lifted_by depth (placed pattern.now)) (term_of term.now)) }
{
    match term {
        Term::Lam(body) => {
            if depth == u32::MAX {
                return Err(NoMemory);
            }
            if body.is_within(depth + 1) {
                return Ok(Term::Lam(body.copy()?));
            }
            let body = renamed(alloc, pattern, depth + 1, body.term())?;
            Ok(Term::Lam(Body::new(alloc, body)?))
        }
        Term::At(head, args) => {
            let head = renamed_head(pattern, depth, *head)?;
            let args = renamed_all(alloc, pattern, depth, args)?;
            Ok(Term::At(head, args))
        }
    }
}

#[cycle(renamed)]
fn renamed_all(
    alloc: Global,
    pattern: &Pattern,
    depth: u32,
    terms: &Terms,
) -> Result<Terms, NoMemory>
    ensures { IfOk result (λ renamed. renamed ≡ rename_spine (lifted_by depth (placed pattern.now)) terms.now) }
{
    if terms.is_within(depth) {
        return terms.copy();
    }
    let items = terms.as_slice();
    let mut results = Vec::with_capacity(alloc, items.len())?;
    for i in 0..items.len() {
        results.push(renamed(alloc, pattern, depth, &items[i])?)?;
    }
    Terms::from_vec(alloc, results)
}
