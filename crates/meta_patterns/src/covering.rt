//! Whether the variables of a term are among those of a pattern.

ghost use Rattle.std.specs.Prelude.{◌≡◌, IfOk};
ghost use Rattle.lf_terms.specs.Terms.{head_of, term_of};
ghost use Rattle.unification.specs.Patterns.{is_among, is_over, is_over_spine, escapes_from, spine_escapes_from};
ghost use Rattle.meta_patterns.specs.Variables.{under_binders, HasBelow};

use crate::pattern::Pattern;
use basics::NoMemory;
use lf_terms::{Head, Term, Terms};

impl Pattern {
    ghost use Rattle.std.specs.Prelude.{◌≡◌, IfOk};
    ghost use Rattle.lf_terms.specs.Terms.{term_of};
    ghost use Rattle.unification.specs.Patterns.{is_over, escapes_from};

    /// Whether each variable that occurs in a term, but for those of its own binders, is one of these.
    pub fn covers(&self, term: &Term) -> Result<bool, NoMemory>
        ensures { IfOk result (λ covers. covers ≡ is_over self.now (term_of term.now)) }
    {
        is_over(self, 0, term)
    }

    /// Whether one that is none of these occurs outside all arguments of metavariables.
    pub fn is_escaped_by(&self, term: &Term) -> Result<bool, NoMemory>
        ensures { IfOk result (λ escapes. escapes ≡ escapes_from self.now (term_of term.now)) }
    {
        escapes_from(self, 0, term)
    }
}

// A number below which each variable is one of these or one of the local binders.
fn below_under(pattern: &Pattern, depth: u32) -> u32
    ensures { HasBelow (under_binders depth pattern.now) result }
{
    depth.saturating_add(pattern.below())
}

// Whether a head under local binders is one of theirs or of these, or no variable.
fn is_among(pattern: &Pattern, depth: u32, head: Head) -> bool
    ensures { result ≡ is_among (under_binders depth pattern.now) (head_of head) }
{
    match head {
        Head::Bound(number) => {
            if number < depth {
                return true;
            }
            pattern.placed_number(number - depth).is_some()
        }
        Head::Const(_) | Head::Meta(_) => true,
    }
}

// A part whose variables are all below such a number costs one step.
#[cycle(is_over)]
fn is_over(pattern: &Pattern, depth: u32, term: &Term) -> Result<bool, NoMemory>
    ensures { IfOk result (λ over. over ≡ is_over (under_binders depth pattern.now) (term_of term.now)) }
{
    match term {
        Term::Lam(body) => {
            if depth == u32::MAX {
                return Err(NoMemory);
            }
            if body.is_within(below_under(pattern, depth + 1)) {
                return Ok(true);
            }
            is_over(pattern, depth + 1, body.term())
        }
        Term::At(head, args) => {
            if !is_among(pattern, depth, *head) {
                return Ok(false);
            }
            is_over_all(pattern, depth, args)
        }
    }
}

#[cycle(is_over)]
fn is_over_all(pattern: &Pattern, depth: u32, terms: &Terms) -> Result<bool, NoMemory>
    ensures { IfOk result (λ over. over ≡ is_over_spine (under_binders depth pattern.now) terms.now) }
{
    if terms.is_within(below_under(pattern, depth)) {
        return Ok(true);
    }
    let items = terms.as_slice();
    for i in 0..items.len() {
        let over = is_over(pattern, depth, &items[i])?;
        if !over {
            return Ok(false);
        }
    }
    Ok(true)
}

#[cycle(escapes_from)]
fn escapes_from(pattern: &Pattern, depth: u32, term: &Term) -> Result<bool, NoMemory>
    ensures { IfOk result (λ escapes. escapes ≡ escapes_from (under_binders depth pattern.now) (term_of term.now)) }
{
    match term {
        Term::Lam(body) => {
            if depth == u32::MAX {
                return Err(NoMemory);
            }
            if body.is_within(below_under(pattern, depth + 1)) {
                return Ok(false);
            }
            escapes_from(pattern, depth + 1, body.term())
        }
        Term::At(head, args) => {
            if !is_among(pattern, depth, *head) {
                return Ok(true);
            }
            match *head {
                Head::Meta(_) => Ok(false),
                Head::Bound(_) | Head::Const(_) => one_escapes_from(pattern, depth, args),
            }
        }
    }
}

#[cycle(escapes_from)]
fn one_escapes_from(pattern: &Pattern, depth: u32, terms: &Terms) -> Result<bool, NoMemory>
    ensures { IfOk result (λ escapes. escapes ≡ spine_escapes_from (under_binders depth pattern.now) terms.now) }
{
    if terms.is_within(below_under(pattern, depth)) {
        return Ok(false);
    }
    let items = terms.as_slice();
    for i in 0..items.len() {
        let escapes = escapes_from(pattern, depth, &items[i])?;
        if escapes {
            return Ok(true);
        }
    }
    Ok(false)
}
