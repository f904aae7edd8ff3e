//! Where a metavariable occurs.

ghost use Rattle.std.specs.Prelude.{◌≡◌, IfOk, is_some};
ghost use Rattle.lf_definitions.specs.Syntax.{metavariable};
ghost use Rattle.head_laws.specs.Mentions.{same_head, occurs_in, occurs_in_spine};
ghost use Rattle.lf_terms.specs.Terms.{head_of, term_of};
ghost use Rattle.unification.specs.Patterns.{variables_of, occurs_plainly, occurs_plainly_in_spine};

use crate::reading::reads;
use basics::NoMemory;
use lf_terms::{Head, Term, Terms};

/// Whether a goal's metavariable occurs in a term. It takes no memory, and a part with no metavariable costs one step.
#[cycle(occurs)]
pub fn occurs(goal: u32, term: &Term) -> bool
    ensures { result ≡ occurs_in (metavariable goal) (term_of term.now) }
{
    if !term.has_metas() {
        return false;
    }
    match term {
        Term::Lam(body) => occurs(goal, body.term()),
        Term::At(head, args) => is_metavariable(goal, *head) || occurs_among(goal, args),
    }
}

/// Whether it occurs in one of these terms.
#[cycle(occurs)]
pub fn occurs_among(goal: u32, terms: &Terms) -> bool
    ensures { result ≡ occurs_in_spine (metavariable goal) terms.now }
{
    if !terms.has_metas() {
        return false;
    }
    let items = terms.as_slice();
    for i in 0..items.len() {
        if occurs(goal, &items[i]) {
            return true;
        }
    }
    false
}

fn is_metavariable(goal: u32, head: Head) -> bool
    ensures { result ≡ same_head (metavariable goal) (head_of head) }
{
    match head {
        Head::Bound(_) | Head::Const(_) => false,
        Head::Meta(number) => goal == number,
    }
}

/// Whether it occurs, applied to arguments that all read as variables, outside all arguments of metavariables.
#[cycle(occurs_plainly)]
pub fn occurs_plainly(goal: u32, term: &Term) -> Result<bool, NoMemory>
    ensures { IfOk result (λ occurs. occurs ≡ occurs_plainly goal (term_of term.now)) }
{
    if !term.has_metas() {
        return Ok(false);
    }
    match term {
        Term::Lam(body) => occurs_plainly(goal, body.term()),
        Term::At(head, args) => match *head {
            Head::Bound(_) | Head::Const(_) => occurs_plainly_among(goal, args),
            Head::Meta(number) => {
                if goal == number {
                    are_variables(args)
                } else {
                    Ok(false)
                }
            }
        },
    }
}

#[cycle(occurs_plainly)]
fn occurs_plainly_among(goal: u32, terms: &Terms) -> Result<bool, NoMemory>
    ensures { IfOk result (λ occurs. occurs ≡ occurs_plainly_in_spine goal terms.now) }
{
    if !terms.has_metas() {
        return Ok(false);
    }
    let items = terms.as_slice();
    for i in 0..items.len() {
        let found = occurs_plainly(goal, &items[i])?;
        if found {
            return Ok(true);
        }
    }
    Ok(false)
}

// Whether each of the terms reads as a variable.
fn are_variables(terms: &Terms) -> Result<bool, NoMemory>
    ensures { IfOk result (λ all. all ≡ is_some (variables_of terms.now)) }
{
    let items = terms.as_slice();
    for i in 0..items.len() {
        let found = reads(&items[i])?;
        if found.is_none() {
            return Ok(false);
        }
    }
    Ok(true)
}
