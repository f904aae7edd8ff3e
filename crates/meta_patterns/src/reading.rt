//! Terms that read as variables.

ghost use Rattle.std.specs.Prelude.{◌≡◌, IfOk, if◌then◌else◌, None};
ghost use Rattle.lf_terms.specs.Terms.{term_of};
ghost use Rattle.unification.specs.Patterns.{from_outside, is_number, reads, reads_under, are_own, variables_of};

use basics::{Ids, NoMemory};
use lf_terms::{Head, Term, Terms};
use std::alloc::Global;

/// The variable that a term reads as, if it is the eta-long form of one. `NoMemory` comes only where its abstractions are past counting.
pub fn reads(term: &Term) -> Result<Option<u32>, NoMemory>
    ensures { IfOk result (λ found. found ≡ reads (term_of term.now)) }
{
    reads_under(0, term)
}

// The same under abstractions that were passed, as many as `count`.
#[cycle(reads)]
fn reads_under(count: u32, term: &Term) -> Result<Option<u32>, NoMemory>
    ensures { IfOk result (λ found. found ≡ reads_under count (term_of term.now)) }
{
    match term {
        Term::Lam(body) => {
            if count == u32::MAX {
                return Err(NoMemory);
            }
            reads_under(count + 1, body.term())
        }
        Term::At(head, args) => match *head {
            Head::Bound(number) => {
                let is_spine = are_own(count, args)?;
                Ok(from_outside(is_spine, count, number))
            }
            Head::Const(_) | Head::Meta(_) => Ok(None),
        },
    }
}

// A variable as it is seen from outside so many binders, where its arguments are theirs.
fn from_outside(is_spine: bool, count: u32, number: u32) -> Option<u32>
    ensures { result ≡ (if is_spine then from_outside count number else None) }
{
    if is_spine && number >= count {
        Some(number - count)
    } else {
        None
    }
}

/// Whether arguments read as the variables of so many binders, the oldest first.
#[cycle(reads)]
pub fn are_own(count: u32, args: &Terms) -> Result<bool, NoMemory>
    ensures { IfOk result (λ own. own ≡ are_own count args.now) }
{
    let items = args.as_slice();
    if items.len() != count as usize {
        return Ok(false);
    }
    for i in 0..items.len() {
        let found = reads_under(0, &items[i])?;
        if !is_number(count - 1 - i as u32, found) {
            return Ok(false);
        }
    }
    Ok(true)
}

fn is_number(number: u32, found: Option<u32>) -> bool
    ensures { result ≡ is_number number found }
{
    match found {
        None => false,
        Some(other) => number == other,
    }
}

/// The variables that arguments read as, in order, if each reads as one.
pub fn variables_of(alloc: Global, args: &Terms) -> Result<Option<Ids>, NoMemory>
    ensures { IfOk result (λ found. found ≡ variables_of args.now) }
{
    let items = args.as_slice();
    let mut numbers = Ids::new(alloc);
    for i in 0..items.len() {
        match reads(&items[i])? {
            None => return Ok(None),
            Some(number) => numbers.push(number)?,
        }
    }
    Ok(Some(numbers))
}
