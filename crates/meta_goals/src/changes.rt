//! What an assignment changes: each walk answers nothing where there is no change, and allocates nothing then.

ghost use Rattle.std.specs.Prelude.{◌≡◌, ◌≤◌, IfOk, length, take, unwrap_or, option_map};
ghost use Rattle.lf_definitions.specs.Syntax.{at, metavariable};
ghost use Rattle.lf_definitions.specs.Instantiation.{Instantiated, InstantiatedSpine};
ghost use Rattle.lf_terms.specs.Terms.{head_of, term_of, spine_of};
ghost use Rattle.meta_goals.specs.Bindings.{assigning};
ghost use Rattle.meta_goals.specs.Instantiates.{Instantiates, TermIsShaped, ArgsAreShaped};

use crate::applied::applied;
use crate::assign::Assign;
use basics::NoMemory;
use lf_terms::term::copy;
use lf_terms::{Body, Head, Term, Terms};
use std::alloc::Global;

// The result of a term, unless it is the term itself.
#[cycle(changed)]
pub(crate) fn changed(alloc: Global, assign: &Assign, term: &Term) -> Result<Option<Term>, NoMemory>
    requires { Instantiates assign.now (TermIsShaped (term_of term.now)) }
    ensures { IfOk result (λ r. Instantiated (assigning assign.now) (term_of term.now) (unwrap_or (option_map term_of r) (term_of term.now))) }
{
    match term {
        Term::Lam(body) => match changed(alloc, assign, body.term())? {
            None => Ok(None),
            Some(inside) => Ok(Some(Term::Lam(Body::new(alloc, inside)?))),
        },
        Term::At(head, args) => {
            let results = changed_all(alloc, assign, args)?;
            match *head {
                Head::Meta(id) => changed_at(alloc, assign, id, args, results),
                Head::Bound(number) => Ok(with_head(Head::Bound(number), results)),
                Head::Const(number) => Ok(with_head(Head::Const(number), results)),
            }
        }
    }
}

// The results of a list of terms, unless each is the term itself. A list without metavariables is passed in
// one step.
#[cycle(changed)]
pub(crate) fn changed_all(
    alloc: Global,
    assign: &Assign,
    terms: &Terms,
) -> Result<Option<Terms>, NoMemory>
    requires { Instantiates assign.now (ArgsAreShaped terms.now) }
    ensures { IfOk result (λ r. InstantiatedSpine (assigning assign.now) terms.now (unwrap_or r terms.now)) }
{
    if !terms.has_metas() {
        return Ok(None);
    }
    let items = terms.as_slice();
    for i in 0..items.len() {
        if let Some(other) = changed(alloc, assign, &items[i])? {
            let mut results = copies(alloc, items, i)?;
            results.push(other)?;
            let results = changed_from(alloc, assign, items, results)?;
            return Ok(Some(Terms::from_vec(alloc, results)?));
        }
    }
    Ok(None)
}

// The results of terms, after those of the first ones.
#[cycle(changed)]
fn changed_from(
    alloc: Global,
    assign: &Assign,
    items: &[Term],
    mut results: Vec<Term>,
) -> Result<Vec<Term>, NoMemory>
    requires shaped { Instantiates assign.now (ArgsAreShaped (spine_of items.now)) }
    requires first { InstantiatedSpine (assigning assign.now) (spine_of (take (length results.items) items.now)) (spine_of results.items) }
    ensures { IfOk result (λ results. InstantiatedSpine (assigning assign.now) (spine_of items.now) (spine_of results.items)) }
{
    let first = results.len();
    for i in first..items.len() {
        let item = &items[i];
        let change = changed(alloc, assign, item)?;
        results.push(term_or(item, change)?)?;
    }
    Ok(results)
}

// What is assigned to a goal, applied to the results of its metavariable's arguments.
fn changed_at(
    alloc: Global,
    assign: &Assign,
    id: u32,
    args: &Terms,
    results: Option<Terms>,
) -> Result<Option<Term>, NoMemory>
    requires shaped { Instantiates assign.now (TermIsShaped (at (metavariable id) args.now)) }
    requires results { InstantiatedSpine (assigning assign.now) args.now (unwrap_or results args.now) }
    ensures { IfOk result (λ r. Instantiated (assigning assign.now) (at (metavariable id) args.now) (unwrap_or (option_map term_of r) (at (metavariable id) args.now))) }
{
    match assign.find(id) {
        None => Ok(with_head(Head::Meta(id), results)),
        Some(entry) => match results {
            None => Ok(Some(applied(alloc, entry, args)?)),
            Some(results) => Ok(Some(applied(alloc, entry, &results)?)),
        },
    }
}

// A head that stays, over the results of its arguments, if these change.
fn with_head(head: Head, results: Option<Terms>) -> Option<Term>
    ensures { option_map term_of result ≡ option_map (at (head_of head)) results }
{
    match results {
        None => None,
        Some(results) => Some(Term::At(head, results)),
    }
}

// Equal terms, the first so many, in a vector with room for all.
pub(crate) fn copies(alloc: Global, items: &[Term], count: usize) -> Result<Vec<Term>, NoMemory>
    requires { count ≤ length items.now }
    ensures { IfOk result (λ copies. spine_of copies.items ≡ spine_of (take count items.now)) }
{
    let mut copies = Vec::with_capacity(alloc, items.len())?;
    for i in 0..count {
        copies.push(copy(&items[i])?)?;
    }
    Ok(copies)
}

// What a term changed to, or else an equal term.
pub(crate) fn term_or(term: &Term, change: Option<Term>) -> Result<Term, NoMemory>
    ensures { IfOk result (λ r. term_of r ≡ unwrap_or (option_map term_of change) (term_of term.now)) }
{
    match change {
        None => copy(term),
        Some(other) => Ok(other),
    }
}

// What a list changed to, or else an equal list.
pub(crate) fn terms_or(terms: &Terms, change: Option<Terms>) -> Result<Terms, NoMemory>
    ensures { IfOk result (λ r. r ≡ unwrap_or change terms.now) }
{
    match change {
        None => terms.copy(),
        Some(others) => Ok(others),
    }
}
