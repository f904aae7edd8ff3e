//! What an assignment makes of terms, types and goals, as text.

ghost use Rattle.goals_tests.specs.Settings.{MayBePut, scope_of};

use crate::problems::{Problem, goal_from};
use crate::reading::{context_from, term_from, type_from};
use crate::setting::Setting;
use crate::shapes::{
    atom_in, is_shaped, is_shaped_goal, is_shaped_type, scope_after, shaped_goals,
};
use crate::writing::{
    append_args, append_atom, append_binders, append_goal, append_list, append_term, append_type,
};
use basics::{Bytes, NoMemory};
use lf_terms::Shapes;
use meta_goals::apply_assign::apply_assign;
use meta_goals::instantiate::{
    instantiate, instantiate_all, instantiate_atom, instantiate_context, instantiate_goal,
    instantiate_type,
};
use meta_goals::{Assign, Goals};
use std::alloc::Global;

/// What is instantiated.
#[derive(Clone, Copy)]
pub(crate) enum Part {
    /// A term.
    Term,
    /// The arguments of a family.
    Args,
    /// A family with its arguments.
    Atom,
    /// A type.
    Type,
    /// A context.
    Context,
    /// A goal.
    Goal,
    /// The list of goals, of which those that are assigned are dropped.
    Goals,
}

/// Adds what an assignment makes of a part that is given as text, or of the problem's goals.
pub(crate) fn append_instance(
    alloc: Global,
    part: Part,
    problem: &Problem,
    assign: &Assign,
    given: &str,
    text: &mut Bytes,
) -> Result<(), NoMemory>
    requires { MayBePut (scope_of problem.now.setting problem.now.variables) assign.now }
{
    let setting = &problem.setting;
    let variables = &problem.variables;
    match part {
        Part::Term => term_instance(alloc, setting, variables, assign, given, text),
        Part::Args => args_instance(alloc, setting, variables, assign, given, text),
        Part::Atom => atom_instance(alloc, setting, variables, assign, given, text),
        Part::Type => type_instance(alloc, setting, variables, assign, given, text),
        Part::Context => context_instance(alloc, setting, variables, assign, given, text),
        Part::Goal => goal_instance(alloc, setting, variables, assign, given, text),
        Part::Goals => left_goals(alloc, setting, variables, assign, &problem.goals, text),
    }
}

fn term_instance(
    alloc: Global,
    setting: &Setting,
    variables: &Shapes,
    assign: &Assign,
    given: &str,
    text: &mut Bytes,
) -> Result<(), NoMemory>
    requires { MayBePut (scope_of setting.now variables.now) assign.now }
{
    let term = term_from(alloc, given)?;
    if !is_shaped(setting, variables, &term) {
        return text.append(b"not shaped");
    }
    append_term(alloc, text, &instantiate(alloc, assign, &term)?)
}

fn args_instance(
    alloc: Global,
    setting: &Setting,
    variables: &Shapes,
    assign: &Assign,
    given: &str,
    text: &mut Bytes,
) -> Result<(), NoMemory>
    requires { MayBePut (scope_of setting.now variables.now) assign.now }
{
    let term = term_from(alloc, given)?;
    let Some(atom) = atom_in(setting, variables, &term)? else {
        return text.append(b"not shaped");
    };
    text.append(b"args")?;
    append_args(alloc, text, &instantiate_all(alloc, assign, &atom.args)?)
}

fn atom_instance(
    alloc: Global,
    setting: &Setting,
    variables: &Shapes,
    assign: &Assign,
    given: &str,
    text: &mut Bytes,
) -> Result<(), NoMemory>
    requires { MayBePut (scope_of setting.now variables.now) assign.now }
{
    let term = term_from(alloc, given)?;
    let Some(atom) = atom_in(setting, variables, &term)? else {
        return text.append(b"not shaped");
    };
    append_atom(alloc, text, &instantiate_atom(alloc, assign, &atom)?)
}

fn type_instance(
    alloc: Global,
    setting: &Setting,
    variables: &Shapes,
    assign: &Assign,
    given: &str,
    text: &mut Bytes,
) -> Result<(), NoMemory>
    requires { MayBePut (scope_of setting.now variables.now) assign.now }
{
    let ty = type_from(alloc, given)?;
    let fits = is_shaped_type(alloc, setting, variables, &ty)?;
    if !fits {
        return text.append(b"not shaped");
    }
    append_type(alloc, text, &instantiate_type(alloc, assign, &ty)?)
}

fn context_instance(
    alloc: Global,
    setting: &Setting,
    variables: &Shapes,
    assign: &Assign,
    given: &str,
    text: &mut Bytes,
) -> Result<(), NoMemory>
    requires { MayBePut (scope_of setting.now variables.now) assign.now }
{
    let ctx = context_from(alloc, given)?;
    let Some(_) = scope_after(alloc, setting, variables, &ctx)? else {
        return text.append(b"not shaped");
    };
    append_binders(alloc, text, &instantiate_context(alloc, assign, &ctx)?)
}

fn goal_instance(
    alloc: Global,
    setting: &Setting,
    variables: &Shapes,
    assign: &Assign,
    given: &str,
    text: &mut Bytes,
) -> Result<(), NoMemory>
    requires { MayBePut (scope_of setting.now variables.now) assign.now }
{
    let goal = goal_from(alloc, "7", given)?;
    let fits = is_shaped_goal(alloc, setting, variables, &goal)?;
    if !fits {
        return text.append(b"not shaped");
    }
    append_goal(alloc, text, &instantiate_goal(alloc, assign, &goal)?)
}

fn left_goals(
    alloc: Global,
    setting: &Setting,
    variables: &Shapes,
    assign: &Assign,
    goals: &Goals,
    text: &mut Bytes,
) -> Result<(), NoMemory>
    requires { MayBePut (scope_of setting.now variables.now) assign.now }
{
    let proofs = shaped_goals(alloc, setting, variables, &goals.proofs)?;
    let witnesses = shaped_goals(alloc, setting, variables, &goals.witnesses)?;
    let shaped = Goals { proofs, witnesses };
    append_list(alloc, text, &apply_assign(alloc, &shaped, assign)?)
}
