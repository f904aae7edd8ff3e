//! The shapes of what may stand in a row, and whether terms, types and goals have them.

ghost use Rattle.std.specs.Prelude.{◌≡◌, ◌++◌, All, IsTrue, IfOk, IfSome};
ghost use Rattle.lf_definitions.specs.Syntax.{base, family, shapes_of_types};
ghost use Rattle.lf_definitions.specs.Shaping.{Shaped, ShapedType};
ghost use Rattle.lf_definitions.specs.ShapedGoals.{ShapedContext};
ghost use Rattle.head_laws.specs.ReplacementLaws.{ShapedGoalOver};
ghost use Rattle.lf_terms.specs.Targets.{goal_of};
ghost use Rattle.lf_terms.specs.Terms.{term_of};
ghost use Rattle.lf_terms.specs.Types.{type_of, atom_of};
ghost use Rattle.goals_tests.specs.Settings.{scope_of, kinds_of};

use crate::reading::type_from;
use crate::setting::Setting;
use basics::NoMemory;
use lf_terms::goal::shapes_of_metas;
use lf_terms::shape_of::shape_of;
use lf_terms::shaped::shaped;
use lf_terms::{Atom, Goal, GoalList, Head, Shape, Shapes, Term, Terms, Ty, Tys};
use std::alloc::Global;

/// The type of a constant, or a family's kind over `n`. All others are as the family `n`.
fn declared(letter: u8) -> &'static str {
    match letter {
        b'a' => "{n}{n}n",
        b'c' => "{n}g 0",
        b'e' => "{n}{n}n",
        b'g' => "{n}n",
        b'h' => "{{n}n}n",
        b'k' => "{n}n",
        b'l' => "{{n}n}n",
        b'm' => "{{{n}n}n}n",
        b'r' => "{{{n}n}n}n",
        b's' => "{n}n",
        b'w' => "{n}{g 0}n",
        _ => "n",
    }
}

/// The shapes of the letters, and of these goals.
pub(crate) fn setting_of(alloc: Global, goals: &GoalList) -> Result<Setting, NoMemory> {
    let mut shapes = Vec::new(alloc);
    for letter in b'a'..=b'z' {
        let ty = type_from(alloc, declared(letter))?;
        shapes.push(shape_of(alloc, &ty)?)?;
    }
    Ok(Setting {
        constants: Shapes::from_vec(alloc, shapes)?,
        metas: shapes_of_metas(alloc, goals)?,
    })
}

/// Whether a term is shaped as one of a family, in the scope of variables of these shapes.
pub(crate) fn is_shaped(setting: &Setting, variables: &Shapes, term: &Term) -> bool
    ensures { IsTrue result → Shaped (scope_of setting.now variables.now) (term_of term.now) base }
{
    let base = Shape {
        args: Shapes::new(),
    };
    shaped(&setting.constants, &setting.metas, variables, term, &base)
}

/// The family with its arguments that a term is, if it is shaped.
pub(crate) fn atom_in(
    setting: &Setting,
    variables: &Shapes,
    term: &Term,
) -> Result<Option<Atom>, NoMemory>
    ensures { IfOk result (λ found. IfSome found (λ atom. ShapedType (kinds_of setting.now) (scope_of setting.now variables.now) (atom_of atom))) }
{
    if !is_shaped(setting, variables, term) {
        return Ok(None);
    }
    let Term::At(head, args) = term else {
        return Ok(None);
    };
    let Head::Const(family) = *head else {
        return Ok(None);
    };
    let copied = args.copy()?;
    Ok(Some(Atom {
        family,
        args: copied,
    }))
}

/// Whether a family with its arguments is shaped.
fn is_shaped_atom(
    setting: &Setting,
    variables: &Shapes,
    number: u32,
    args: &Terms,
) -> Result<bool, NoMemory>
    ensures { IfOk result (λ shaped. IsTrue shaped → ShapedType (kinds_of setting.now) (scope_of setting.now variables.now) (family number args.now)) }
{
    let term = Term::At(Head::Const(number), args.copy()?);
    Ok(is_shaped(setting, variables, &term))
}

/// Whether a type is shaped.
#[cycle(is_shaped_type)]
pub(crate) fn is_shaped_type(
    alloc: Global,
    setting: &Setting,
    variables: &Shapes,
    ty: &Ty,
) -> Result<bool, NoMemory>
    ensures { IfOk result (λ shaped. IsTrue shaped → ShapedType (kinds_of setting.now) (scope_of setting.now variables.now) (type_of ty.now)) }
{
    match scope_after(alloc, setting, variables, &ty.binders)? {
        None => Ok(false),
        Some(inside) => Ok(is_shaped_atom(setting, &inside, ty.family, &ty.args)?),
    }
}

/// The shapes of the variables and of these binders, if the binders are shaped.
#[cycle(is_shaped_type)]
pub(crate) fn scope_after(
    alloc: Global,
    setting: &Setting,
    variables: &Shapes,
    types: &Tys,
) -> Result<Option<Shapes>, NoMemory>
    ensures shapes { IfOk result (λ found. IfSome found (λ inside. inside ≡ variables.now ++ shapes_of_types types.now)) }
    ensures context { IfOk result (λ found. IfSome found (λ inside. ShapedContext (kinds_of setting.now) (scope_of setting.now variables.now) types.now)) }
{
    let mut inside = variables.copy()?;
    let items = types.as_slice();
    for i in 0..items.len() {
        let item = &items[i];
        let fits = is_shaped_type(alloc, setting, &inside, item)?;
        if !fits {
            return Ok(None);
        }
        inside.push(alloc, shape_of(alloc, item)?)?;
    }
    Ok(Some(inside))
}

/// Whether a goal is shaped.
pub(crate) fn is_shaped_goal(
    alloc: Global,
    setting: &Setting,
    variables: &Shapes,
    goal: &Goal,
) -> Result<bool, NoMemory>
    ensures { IfOk result (λ shaped. IsTrue shaped → ShapedGoalOver (kinds_of setting.now) (scope_of setting.now variables.now) (goal_of goal.now)) }
{
    match scope_after(alloc, setting, variables, &goal.ctx)? {
        None => Ok(false),
        Some(inside) => Ok(is_shaped_atom(
            setting,
            &inside,
            goal.target.family,
            &goal.target.args,
        )?),
    }
}

/// Those of the goals that are shaped.
pub(crate) fn shaped_goals(
    alloc: Global,
    setting: &Setting,
    variables: &Shapes,
    goals: &GoalList,
) -> Result<GoalList, NoMemory>
    ensures { IfOk result (λ those. All (ShapedGoalOver (kinds_of setting.now) (scope_of setting.now variables.now)) those) }
{
    let mut those = GoalList::new(alloc);
    for goal in goals.as_slice() {
        let fits = is_shaped_goal(alloc, setting, variables, goal)?;
        if fits {
            those.push(goal.copy()?)?;
        }
    }
    Ok(those)
}
