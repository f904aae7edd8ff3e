//! Instantiation by an assignment.

ghost use Rattle.std.specs.Prelude.{◌≡◌, IfOk};
ghost use Rattle.lf_definitions.specs.Instantiation.{Instantiated, InstantiatedSpine, InstantiatedType, InstantiatedContext, InstantiatedGoal};
ghost use Rattle.lf_terms.specs.Terms.{term_of};
ghost use Rattle.lf_terms.specs.Types.{type_of, atom_of};
ghost use Rattle.lf_terms.specs.Targets.{goal_of};
ghost use Rattle.meta_goals.specs.Bindings.{assigning};
ghost use Rattle.meta_goals.specs.Instantiates.{Instantiates, TermIsShaped, ArgsAreShaped, TypeIsShaped, ContextIsShaped, GoalIsShaped, TermKeepsShape, ArgsKeepShape, TypeKeepsShape, ContextKeepsShape, GoalKeepsShape};

use crate::assign::Assign;
use crate::changes::{changed, changed_all, term_or, terms_or};
use crate::type_changes::{changed_type, changed_types, type_or, types_or};
use basics::NoMemory;
use lf_terms::{Atom, Ctx, Goal, Term, Terms, Ty};
use std::alloc::Global;

/// A term with what is assigned put for its metavariables. What mentions no assigned goal is shared, and so
/// is the body of a metavariable that is applied to its own context's variables. Scopes before and after are
/// asked for in which this is shaped; in any such scopes the result is shaped as the term is.
pub fn instantiate(alloc: Global, assign: &Assign, term: &Term) -> Result<Term, NoMemory>
    requires { Instantiates assign.now (TermIsShaped (term_of term.now)) }
    ensures result { IfOk result (λ r. Instantiated (assigning assign.now) (term_of term.now) (term_of r)) }
    ensures shaped { IfOk result (λ r. TermKeepsShape assign.now (term_of term.now) (term_of r)) }
{
    let change = changed(alloc, assign, term)?;
    term_or(term, change)
}

/// The same in each term of a list.
pub fn instantiate_all(alloc: Global, assign: &Assign, terms: &Terms) -> Result<Terms, NoMemory>
    requires { Instantiates assign.now (ArgsAreShaped terms.now) }
    ensures result { IfOk result (λ r. InstantiatedSpine (assigning assign.now) terms.now r) }
    ensures shaped { IfOk result (λ r. ArgsKeepShape assign.now terms.now r) }
{
    let change = changed_all(alloc, assign, terms)?;
    terms_or(terms, change)
}

/// The same in each term of a type.
pub fn instantiate_type(alloc: Global, assign: &Assign, ty: &Ty) -> Result<Ty, NoMemory>
    requires { Instantiates assign.now (TypeIsShaped (type_of ty.now)) }
    ensures result { IfOk result (λ r. InstantiatedType (assigning assign.now) (type_of ty.now) (type_of r)) }
    ensures shaped { IfOk result (λ r. TypeKeepsShape assign.now (type_of ty.now) (type_of r)) }
{
    let change = changed_type(alloc, assign, ty)?;
    type_or(ty, change)
}

/// The same in each entry of a context.
pub fn instantiate_context(alloc: Global, assign: &Assign, ctx: &Ctx) -> Result<Ctx, NoMemory>
    requires { Instantiates assign.now (ContextIsShaped ctx.now) }
    ensures result { IfOk result (λ r. InstantiatedContext (assigning assign.now) ctx.now r) }
    ensures shaped { IfOk result (λ r. ContextKeepsShape assign.now ctx.now r) }
{
    let change = changed_types(alloc, assign, ctx)?;
    types_or(ctx, change)
}

/// The same in each argument of an atom.
pub fn instantiate_atom(alloc: Global, assign: &Assign, atom: &Atom) -> Result<Atom, NoMemory>
    requires { Instantiates assign.now (TypeIsShaped (atom_of atom.now)) }
    ensures result { IfOk result (λ r. InstantiatedType (assigning assign.now) (atom_of atom.now) (atom_of r)) }
    ensures shaped { IfOk result (λ r. TypeKeepsShape assign.now (atom_of atom.now) (atom_of r)) }
{
    let args = instantiate_all(alloc, assign, &atom.args)?;
    Ok(Atom {
        family: atom.family,
        args,
    })
}

/// The same in the context and in the target of a goal, which keeps its number.
pub fn instantiate_goal(alloc: Global, assign: &Assign, goal: &Goal) -> Result<Goal, NoMemory>
    requires { Instantiates assign.now (GoalIsShaped (goal_of goal.now)) }
    ensures result { IfOk result (λ r. InstantiatedGoal (assigning assign.now) (goal_of goal.now) (goal_of r)) }
    ensures shaped { IfOk result (λ r. GoalKeepsShape assign.now (goal_of goal.now) (goal_of r)) }
{
    let ctx = instantiate_context(alloc, assign, &goal.ctx)?;
    let target = instantiate_atom(alloc, assign, &goal.target)?;
    Ok(Goal {
        id: goal.id,
        ctx,
        target,
    })
}
