//! Terms and types from text. A variable is a digit, a family or a constant a small letter, and a goal's metavariable a digit after `?`.
//! Heads stand before their arguments, `\` stands before the body of an abstraction, and a binder of a type stands in braces.

use basics::NoMemory;
use lf_terms::{Body, Ctx, Head, Term, Terms, Ty, Tys};
use std::alloc::Global;

/// What was read of a text, or of a part in parentheses or braces, from its end. The last items are the first.
#[derive(Drop)]
struct Part {
    binders: Vec<Ty>,
    terms: Vec<Term>,
}

fn no_part(alloc: Global) -> Part {
    Part {
        binders: Vec::new(alloc),
        terms: Vec::new(alloc),
    }
}

/// The term that a text is.
pub(crate) fn term_from(alloc: Global, text: &str) -> Result<Term, NoMemory> {
    let part = part_from(alloc, text)?;
    term_of_part(alloc, part.terms)
}

/// The terms that a text is, one after another.
pub(crate) fn terms_from(alloc: Global, text: &str) -> Result<Terms, NoMemory> {
    let part = part_from(alloc, text)?;
    terms_in_order(alloc, part.terms)
}

/// The type that a text is.
pub(crate) fn type_from(alloc: Global, text: &str) -> Result<Ty, NoMemory> {
    let part = part_from(alloc, text)?;
    type_of_part(alloc, part)
}

/// The context that a text is: binders alone.
pub(crate) fn context_from(alloc: Global, text: &str) -> Result<Ctx, NoMemory> {
    let part = part_from(alloc, text)?;
    types_in_order(alloc, part.binders)
}

fn part_from(alloc: Global, text: &str) -> Result<Part, NoMemory> {
    let bytes = text.as_bytes();
    let mut open = Vec::new(alloc);
    open.push(no_part(alloc))?;
    for i in 0..bytes.len() {
        read_byte(alloc, &mut open, bytes[bytes.len() - 1 - i])?;
    }
    Ok(innermost(alloc, &mut open))
}

/// Takes the innermost of the parts that are open.
fn innermost(alloc: Global, open: &mut Vec<Part>) -> Part {
    match open.pop() {
        Some(part) => part,
        None => no_part(alloc),
    }
}

fn read_byte(alloc: Global, open: &mut Vec<Part>, byte: u8) -> Result<(), NoMemory> {
    match byte {
        b')' | b'}' => open.push(no_part(alloc))?,
        b'(' => {
            let inner = innermost(alloc, open);
            let term = term_of_part(alloc, inner.terms)?;
            add_term(alloc, open, term)?;
        }
        b'{' => {
            let inner = innermost(alloc, open);
            let ty = type_of_part(alloc, inner)?;
            add_binder(alloc, open, ty)?;
        }
        b'\\' => abstract_all(alloc, open)?,
        b'?' => make_metavariable(alloc, open)?,
        b'0'..=b'9' => add_term(alloc, open, bare(Head::Bound((byte - b'0') as u32)))?,
        b'a'..=b'z' => add_term(alloc, open, bare(Head::Const((byte - b'a') as u32)))?,
        _ => {}
    }
    Ok(())
}

fn bare(head: Head) -> Term {
    Term::At(head, Terms::new())
}

fn add_term(alloc: Global, open: &mut Vec<Part>, term: Term) -> Result<(), NoMemory> {
    let mut part = innermost(alloc, open);
    part.terms.push(term)?;
    open.push(part)?;
    Ok(())
}

fn add_binder(alloc: Global, open: &mut Vec<Part>, ty: Ty) -> Result<(), NoMemory> {
    let mut part = innermost(alloc, open);
    part.binders.push(ty)?;
    open.push(part)?;
    Ok(())
}

/// Makes one abstraction of all terms of the innermost part.
fn abstract_all(alloc: Global, open: &mut Vec<Part>) -> Result<(), NoMemory> {
    let part = innermost(alloc, open);
    let body = term_of_part(alloc, part.terms)?;
    open.push(no_part(alloc))?;
    add_term(alloc, open, Term::Lam(Body::new(alloc, body)?))
}

/// Makes a metavariable of the variable that was read last.
fn make_metavariable(alloc: Global, open: &mut Vec<Part>) -> Result<(), NoMemory> {
    let mut part = innermost(alloc, open);
    if let Some(Term::At(Head::Bound(number), args)) = part.terms.pop() {
        part.terms.push(Term::At(Head::Meta(number), args))?;
    }
    open.push(part)?;
    Ok(())
}

/// A head with its arguments, the head last. One that stands alone is itself.
fn term_of_part(alloc: Global, mut terms: Vec<Term>) -> Result<Term, NoMemory> {
    match terms.pop() {
        None => Ok(bare(Head::Const(0))),
        Some(Term::Lam(body)) => Ok(Term::Lam(body)),
        Some(Term::At(head, args)) => {
            if terms.is_empty() {
                return Ok(Term::At(head, args));
            }
            Ok(Term::At(head, terms_in_order(alloc, terms)?))
        }
    }
}

fn type_of_part(alloc: Global, part: Part) -> Result<Ty, NoMemory> {
    let binders = types_in_order(alloc, part.binders)?;
    match term_of_part(alloc, part.terms)? {
        Term::At(Head::Const(family), args) => Ok(Ty {
            binders,
            family,
            args,
        }),
        _ => Ok(Ty {
            binders,
            family: 0,
            args: Terms::new(),
        }),
    }
}

fn terms_in_order(alloc: Global, mut terms: Vec<Term>) -> Result<Terms, NoMemory> {
    terms.reverse();
    Terms::from_vec(alloc, terms)
}

fn types_in_order(alloc: Global, mut types: Vec<Ty>) -> Result<Tys, NoMemory> {
    types.reverse();
    Tys::from_vec(alloc, types)
}
