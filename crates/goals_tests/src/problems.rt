//! Problems of unification from text: a context, goals, the numbers of the frozen ones, and equations.

ghost use Rattle.std.specs.Prelude.{All, IfOk, IfSome, OnOk};
ghost use Rattle.goals_tests.specs.Settings.{ShapedPair, AnswerMayBePut, scope_of};

use crate::reading::{context_from, term_from, type_from};
use crate::setting::Setting;
use crate::shapes::{atom_in, setting_of};
use basics::{Ids, NoMemory};
use lf_terms::shape_of::shapes_of;
use lf_terms::{Atom, Goal, GoalList, Shapes};
use meta_goals::Goals;
use meta_unify::{Equation, Equations, Unified, unify};
use std::alloc::Global;

/// Goals, the frozen ones among them, and what may be said in their context.
#[derive(Drop)]
pub(crate) struct Problem {
    pub(crate) goals: Goals,
    pub(crate) frozen: Ids,
    pub(crate) setting: Setting,
    pub(crate) variables: Shapes,
}

/// A problem from the text of its context, of its goals and of the frozen numbers.
pub(crate) fn problem_from(
    alloc: Global,
    ctx: &str,
    goals: &str,
    frozen: &str,
) -> Result<Problem, NoMemory> {
    let goals = goals_from(alloc, goals)?;
    let setting = setting_of(alloc, &joined(alloc, &goals)?)?;
    let variables = shapes_of(alloc, &context_from(alloc, ctx)?)?;
    Ok(Problem {
        goals,
        frozen: numbers_from(alloc, frozen)?,
        setting,
        variables,
    })
}

/// Numbers, with a space between them.
pub(crate) fn numbers_from(alloc: Global, text: &str) -> Result<Ids, NoMemory> {
    let mut numbers = Ids::new(alloc);
    for word in text.split_whitespace() {
        numbers.push(word.parse().unwrap_or(0))?;
    }
    Ok(numbers)
}

/// Proof goals and, after a semicolon, witnesses.
pub(crate) fn goals_from(alloc: Global, text: &str) -> Result<Goals, NoMemory> {
    let (proofs, witnesses) = text.split_once(';').unwrap_or((text, ""));
    Ok(Goals {
        proofs: list_from(alloc, proofs)?,
        witnesses: list_from(alloc, witnesses)?,
    })
}

/// Goals with a comma between them.
fn list_from(alloc: Global, text: &str) -> Result<GoalList, NoMemory> {
    let mut goals = GoalList::new(alloc);
    for part in text.split(',') {
        if let Some((number, ty)) = part.split_once(':') {
            goals.push(goal_from(alloc, number, ty)?)?;
        }
    }
    Ok(goals)
}

/// A goal from its number and its type: its context as binders over its target.
pub(crate) fn goal_from(alloc: Global, number: &str, ty: &str) -> Result<Goal, NoMemory> {
    let ty = type_from(alloc, ty)?;
    Ok(Goal {
        id: number.trim().parse().unwrap_or(0),
        ctx: ty.binders,
        target: Atom {
            family: ty.family,
            args: ty.args,
        },
    })
}

/// All goals of a list.
fn joined(alloc: Global, goals: &Goals) -> Result<GoalList, NoMemory> {
    let mut all = goals.proofs.copy(alloc)?;
    for goal in goals.witnesses.as_slice() {
        all.push(goal.copy()?)?;
    }
    Ok(all)
}

/// Equations with a comma between them, if all are shaped.
pub(crate) fn equations_from(
    alloc: Global,
    setting: &Setting,
    variables: &Shapes,
    text: &str,
) -> Result<Option<Equations>, NoMemory>
    ensures { IfOk result (λ found. IfSome found (λ equations. All (ShapedPair setting.now variables.now) equations)) }
{
    let mut equations = Equations::new(alloc);
    for part in text.split(',') {
        if !add_equation(alloc, setting, variables, part, &mut equations)? {
            return Ok(None);
        }
    }
    Ok(Some(equations))
}

/// Adds the equation of a text, if there is one and it is shaped. The answer is whether none was left out.
fn add_equation(
    alloc: Global,
    setting: &Setting,
    variables: &Shapes,
    text: &str,
    equations: &mut Equations,
) -> Result<bool, NoMemory>
    ensures { OnOk result (All (ShapedPair setting.now variables.now) equations.old → All (ShapedPair setting.now variables.now) equations.new) }
{
    let Some((left, right)) = text.split_once('=') else {
        return Ok(text.trim().is_empty());
    };
    let left = term_from(alloc, left)?;
    let right = term_from(alloc, right)?;
    let Some(left) = atom_in(setting, variables, &left)? else {
        return Ok(false);
    };
    let Some(right) = atom_in(setting, variables, &right)? else {
        return Ok(false);
    };
    equations.push(Equation { left, right })?;
    Ok(true)
}

/// Unifies equations that are shaped. What is assigned may be put in what is shaped there.
pub(crate) fn unify_shaped(
    alloc: Global,
    setting: &Setting,
    variables: &Shapes,
    frozen: &Ids,
    equations: &Equations,
) -> Result<Unified, NoMemory>
    requires { All (ShapedPair setting.now variables.now) equations.now }
    ensures { IfOk result (λ unified. AnswerMayBePut (scope_of setting.now variables.now) unified) }
{
    let unified = unify(alloc, frozen, equations)?;
    Ok(unified)
}
