//! The walk over two terms that are to become one, from left to right.

ghost use Rattle.std.specs.Prelude.{◌≡◌, [], ◌∷◌, IfOk, ◌⊎◌, true, false};
ghost use Rattle.lf_terms.specs.Terms.{term_of};
ghost use Rattle.meta_unify.specs.Equations.{is_flexible};
ghost use Rattle.meta_unify.specs.Standing.{IsWorkable, AreWorkable, MentionsNoneBound};
ghost use Rattle.meta_unify.specs.Walks.{Walked};
ghost use Rattle.unification.specs.Equations.{of_terms, argument_equations};
ghost use Rattle.unification.specs.Patterns.{has_number};

use crate::frozen::FrozenGoals;
use crate::late::full;
use crate::solving::{is_flexible, is_same_head, reason, solve};
use crate::stop::{Cause, Stop, stop_here, stop_in};
use basics::NoMemory;
use lf_terms::same::same;
use lf_terms::{Term, Terms};
use meta_goals::Assign;
use std::alloc::Global;

// Makes two terms one, or stops. What is assigned is put in only where a head is a metavariable. `room` is how much deeper a walk may go.
#[cycle(walk)]
pub fn unify_terms(
    alloc: Global,
    frozen: &FrozenGoals,
    late: &mut Assign,
    room: u32,
    left: &Term,
    right: &Term,
) -> Result<Option<Stop>, NoMemory>
    requires { IsWorkable late.old (term_of left.now) (term_of right.now) }
    ensures { IfOk result (λ r. Walked (has_number frozen.now) late.old late.new (λ path. of_terms path (term_of left.now) (term_of right.now) ∷ []) r) }
{
    if room == 0 {
        return Err(NoMemory);
    }
    if !is_flexible(left) && !is_flexible(right) {
        return unify_heads(alloc, frozen, &mut *late, room - 1, left, right);
    }
    let left = full(alloc, &*late, left)?;
    let right = full(alloc, &*late, right)?;
    if is_flexible(&left) || is_flexible(&right) {
        return settle(alloc, frozen, &mut *late, &left, &right);
    }
    unify_heads(alloc, frozen, &mut *late, room - 1, &left, &right)
}

// The same for terms whose heads are no metavariables.
#[cycle(walk)]
fn unify_heads(
    alloc: Global,
    frozen: &FrozenGoals,
    late: &mut Assign,
    room: u32,
    left: &Term,
    right: &Term,
) -> Result<Option<Stop>, NoMemory>
    requires workable { IsWorkable late.old (term_of left.now) (term_of right.now) }
    requires left { is_flexible (term_of left.now) ≡ false }
    requires right { is_flexible (term_of right.now) ≡ false }
    ensures { IfOk result (λ r. Walked (has_number frozen.now) late.old late.new (λ path. of_terms path (term_of left.now) (term_of right.now) ∷ []) r) }
{
    match (left, right) {
        (Term::Lam(b), Term::Lam(c)) => {
            match unify_terms(alloc, frozen, &mut *late, room, b.term(), c.term())? {
                None => Ok(None),
                Some(stop) => Ok(Some(stop_in(0, stop)?)),
            }
        }
        (Term::At(h, ts), Term::At(k, us)) => {
            if is_same_head(*h, *k) {
                unify_args(alloc, frozen, &mut *late, room, ts, us)
            } else {
                Ok(Some(stop_here(alloc, Cause::Apart)))
            }
        }
        _ => Ok(Some(stop_here(alloc, Cause::Apart))),
    }
}

// The same for the arguments of equal heads.
#[cycle(walk)]
pub fn unify_args(
    alloc: Global,
    frozen: &FrozenGoals,
    late: &mut Assign,
    room: u32,
    left: &Terms,
    right: &Terms,
) -> Result<Option<Stop>, NoMemory>
    requires { AreWorkable late.old left.now right.now }
    ensures { IfOk result (λ r. Walked (has_number frozen.now) late.old late.new (λ path. argument_equations path 0 left.now right.now) r) }
{
    let ts = left.as_slice();
    let us = right.as_slice();
    for i in 0..ts.len() {
        match unify_terms(alloc, frozen, &mut *late, room, &ts[i], &us[i])? {
            None => {}
            Some(stop) => return Ok(Some(stop_in(i, stop)?)),
        }
    }
    Ok(None)
}

// Two terms that mention nothing that is assigned, one of which has a metavariable as its head.
fn settle(
    alloc: Global,
    frozen: &FrozenGoals,
    late: &mut Assign,
    left: &Term,
    right: &Term,
) -> Result<Option<Stop>, NoMemory>
    requires workable { IsWorkable late.old (term_of left.now) (term_of right.now) }
    requires left { MentionsNoneBound late.old (term_of left.now) }
    requires right { MentionsNoneBound late.old (term_of right.now) }
    requires flexible { (is_flexible (term_of left.now) ≡ true) ⊎ (is_flexible (term_of right.now) ≡ true) }
    ensures { IfOk result (λ r. Walked (has_number frozen.now) late.old late.new (λ path. of_terms path (term_of left.now) (term_of right.now) ∷ []) r) }
{
    if same(left, right) {
        return Ok(None);
    }
    if let Some((id, entry)) = solve(alloc, frozen, left, right)? {
        late.push(id, entry)?;
        return Ok(None);
    }
    if let Some((id, entry)) = solve(alloc, frozen, right, left)? {
        late.push(id, entry)?;
        return Ok(None);
    }
    if let Some(cause) = reason(alloc, frozen, left, right)? {
        return Ok(Some(stop_here(alloc, cause)));
    }
    // The left head is no metavariable, so the right one is, and has a reason.
    match reason(alloc, frozen, right, left)? {
        Some(cause) => Ok(Some(stop_here(alloc, cause))),
        None => unreachable!(),
    }
}
