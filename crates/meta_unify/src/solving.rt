//! When a side of an equation is solvable for the other, and why not.

ghost use Rattle.std.specs.Prelude.{◌≡◌, IfOk, List, ℕ, Some, option_map, not, ◌&&◌};
ghost use Rattle.head_laws.specs.Mentions.{same_head, occurs_in};
ghost use Rattle.lf_definitions.specs.Syntax.{metavariable};
ghost use Rattle.lf_terms.specs.Terms.{head_of, term_of};
ghost use Rattle.meta_goals.specs.Bindings.{assigned_of};
ghost use Rattle.meta_goals.specs.Entries.{binding_of};
ghost use Rattle.meta_unify.specs.Equations.{is_flexible};
ghost use Rattle.meta_unify.specs.Endings.{reason_at, reason_for};
ghost use Rattle.meta_unify.specs.Shapes.{KnowsShapes};
ghost use Rattle.unification.specs.Patterns.{has_number};
ghost use Rattle.unification.specs.Transitions.{solving, has_head};

use crate::frozen::FrozenGoals;
use crate::shapes::shapes_shown;
use crate::stop::Cause;
use basics::NoMemory;
use lf_terms::{Head, Term};
use meta_goals::Entry;
use meta_patterns::{occurs, occurs_plainly, pattern_of};
use std::alloc::Global;

// What the metavariable at the left term's head is assigned, if that term is solvable for the right one.
pub fn solve(
    alloc: Global,
    frozen: &FrozenGoals,
    left: &Term,
    right: &Term,
) -> Result<Option<(u32, Entry)>, NoMemory>
    ensures entry { IfOk result (λ found. option_map (λ e. assigned_of (binding_of e)) found ≡ solving (has_number frozen.now) (term_of left.now) (term_of right.now)) }
    ensures shapes { IfOk result (λ found. KnowsShapes (term_of left.now) found) }
{
    let Term::At(head, args) = left else {
        return Ok(None);
    };
    let Head::Meta(goal) = *head else {
        return Ok(None);
    };
    if !may_become(frozen, goal, right) {
        return Ok(None);
    }
    let Some(pattern) = pattern_of(alloc, args)? else {
        return Ok(None);
    };
    if !pattern.covers(right)? {
        return Ok(None);
    }
    let shapes = shapes_shown(alloc, args)?;
    let body = pattern.placed(alloc, right)?;
    Ok(Some((goal, Entry { shapes, body })))
}

// Whether a goal may become a term: it is not frozen, and does not occur in the term.
fn may_become(frozen: &FrozenGoals, goal: u32, term: &Term) -> bool
    ensures { result ≡ (not (has_number frozen.now goal) && not (occurs_in (metavariable goal) (term_of term.now))) }
{
    !frozen.has(goal) && !occurs(goal, term)
}

// The reason of the left term against the right one, if its head is a metavariable.
pub fn reason(
    alloc: Global,
    frozen: &FrozenGoals,
    left: &Term,
    right: &Term,
) -> Result<Option<Cause>, NoMemory>
    ensures { IfOk result (λ found. (path : List ℕ) → option_map (λ c. reason_at c path) found ≡ reason_for (has_number frozen.now) path (term_of left.now) (term_of right.now)) }
{
    let Term::At(Head::Meta(goal), args) = left else {
        return Ok(None);
    };
    let goal = *goal;
    let Some(pattern) = pattern_of(alloc, args)? else {
        return Ok(Some(Cause::Unclear));
    };
    if frozen.has(goal) {
        return Ok(Some(Cause::Unclear));
    }
    if has_head(goal, right) {
        return Ok(Some(Cause::Hidden));
    }
    if occurs_plainly(goal, right)? {
        return Ok(Some(Cause::Cyclic(goal)));
    }
    if pattern.is_escaped_by(right)? {
        return Ok(Some(Cause::Outside));
    }
    if pattern.covers(right)? {
        return Ok(Some(Cause::Unclear));
    }
    Ok(Some(Cause::Hidden))
}

// Whether a term's head is a goal's metavariable.
fn has_head(goal: u32, term: &Term) -> bool
    ensures { result ≡ has_head (metavariable goal) (term_of term.now) }
{
    match term {
        Term::At(Head::Meta(number), _) => goal == *number,
        _ => false,
    }
}

// Whether a term's head is a metavariable.
pub fn is_flexible(term: &Term) -> bool
    ensures { result ≡ is_flexible (term_of term.now) }
{
    match term {
        Term::At(Head::Meta(_), _) => true,
        _ => false,
    }
}

// Whether two heads are the same.
pub fn is_same_head(a: Head, b: Head) -> bool
    ensures { result ≡ same_head (head_of a) (head_of b) }
{
    match (a, b) {
        (Head::Bound(n), Head::Bound(m)) => n == m,
        (Head::Const(c), Head::Const(d)) => c == d,
        (Head::Meta(g), Head::Meta(m)) => g == m,
        _ => false,
    }
}
