//! Unification.

ghost use Rattle.std.specs.Prelude.{◌≡◌, [], ◌∷◌, IfOk};
ghost use Rattle.meta_unify.specs.Equations.{atoms_of};
ghost use Rattle.meta_unify.specs.Endings.{ending_of};
ghost use Rattle.meta_unify.specs.Walks.{Walked, WalkedAt, IsShapedProblem, AnswerKnowsContexts};
ghost use Rattle.meta_unify.specs.Standing.{AtomsAreWorkable};
ghost use Rattle.unification.specs.Equations.{numbered_from, of_atoms};
ghost use Rattle.unification.specs.Patterns.{has_number};
ghost use Rattle.unification.specs.Transitions.{Unifies};

use crate::equations::{Equation, Equations};
use crate::frozen::FrozenGoals;
use crate::late::resolved;
use crate::stop::{Cause, Stop, refusal, stop_here, stop_in};
use crate::unified::Unified;
use crate::walk::unify_args;
use basics::{Ids, NoMemory};
use meta_goals::Assign;
use std::alloc::Global;

/// Unifies equations, in which the metavariables of some goals are frozen: these are assigned nothing. It ends as the transitions of the
/// definition do, with the same entries in the same order, or the same reason. A pattern's arguments show the shapes of its goal's context,
/// so neither a signature nor a list of goals is asked for.
pub fn unify(alloc: Global, frozen: &Ids, equations: &Equations) -> Result<Unified, NoMemory>
    requires { IsShapedProblem equations.now }
    ensures ending { IfOk result (λ unified. Unifies (has_number frozen.now) (numbered_from 0 equations.now) (ending_of unified)) }
    ensures contexts { IfOk result (λ unified. AnswerKnowsContexts equations.now unified) }
{
    let goals = FrozenGoals::from_ids(alloc, frozen)?;
    let mut late = Assign::new(alloc);
    match unify_all(alloc, &goals, &mut late, equations)? {
        None => Ok(Unified::Solved(resolved(alloc, &late)?)),
        Some(stop) => Ok(refusal(stop)),
    }
}

// Makes the sides of each equation one, or stops.
fn unify_all(
    alloc: Global,
    frozen: &FrozenGoals,
    late: &mut Assign,
    equations: &Equations,
) -> Result<Option<Stop>, NoMemory>
    requires fresh { late.old ≡ [] }
    requires shaped { IsShapedProblem equations.now }
    ensures { IfOk result (λ r. WalkedAt (has_number frozen.now) late.old late.new [] (numbered_from 0 equations.now) r) }
{
    let items = equations.as_slice();
    for i in 0..items.len() {
        match unify_atoms(alloc, frozen, &mut *late, &items[i])? {
            None => {}
            Some(stop) => return Ok(Some(stop_in(i, stop)?)),
        }
    }
    Ok(None)
}

// Makes two atoms one, or stops.
fn unify_atoms(
    alloc: Global,
    frozen: &FrozenGoals,
    late: &mut Assign,
    equation: &Equation,
) -> Result<Option<Stop>, NoMemory>
    requires { AtomsAreWorkable late.old (atoms_of equation.now) }
    ensures { IfOk result (λ r. Walked (has_number frozen.now) late.old late.new (λ path. of_atoms path (atoms_of equation.now).0 (atoms_of equation.now).1 ∷ []) r) }
{
    if equation.left.family != equation.right.family {
        return Ok(Some(stop_here(alloc, Cause::Apart)));
    }
    unify_args(
        alloc,
        frozen,
        &mut *late,
        u32::MAX,
        &equation.left.args,
        &equation.right.args,
    )
}
