//! What an assignment changes in types, as `changes` says it of terms.

ghost use Rattle.std.specs.Prelude.{◌≡◌, ◌≤◌, IfOk, length, take, unwrap_or, option_map};
ghost use Rattle.lf_definitions.specs.Syntax.{pis, family};
ghost use Rattle.lf_definitions.specs.Instantiation.{InstantiatedType, InstantiatedContext};
ghost use Rattle.lf_terms.specs.Types.{type_of, types_of};
ghost use Rattle.meta_goals.specs.Bindings.{assigning};
ghost use Rattle.meta_goals.specs.Instantiates.{Instantiates, TypeIsShaped, ContextIsShaped};

use crate::assign::Assign;
use crate::changes::{changed_all, terms_or};
use basics::NoMemory;
use lf_terms::{Terms, Ty, Tys};
use std::alloc::Global;

// The result of a type, unless it is the type itself.
#[cycle(changed_type)]
pub(crate) fn changed_type(alloc: Global, assign: &Assign, ty: &Ty) -> Result<Option<Ty>, NoMemory>
    requires { Instantiates assign.now (TypeIsShaped (type_of ty.now)) }
    ensures { IfOk result (λ r. InstantiatedType (assigning assign.now) (type_of ty.now) (unwrap_or (option_map type_of r) (type_of ty.now))) }
{
    let binders = changed_types(alloc, assign, &ty.binders)?;
    let args = changed_all(alloc, assign, &ty.args)?;
    with_parts(ty, binders, args)
}

// The results of types, each in the scope of those before it, unless each is the type itself. Types without
// metavariables are passed in one step.
#[cycle(changed_type)]
pub(crate) fn changed_types(
    alloc: Global,
    assign: &Assign,
    types: &Tys,
) -> Result<Option<Tys>, NoMemory>
    requires { Instantiates assign.now (ContextIsShaped types.now) }
    ensures { IfOk result (λ r. InstantiatedContext (assigning assign.now) types.now (unwrap_or r types.now)) }
{
    if !types.has_metas() {
        return Ok(None);
    }
    let items = types.as_slice();
    for i in 0..items.len() {
        if let Some(other) = changed_type(alloc, assign, &items[i])? {
            let mut results = type_copies(alloc, items, i)?;
            results.push(other)?;
            let results = changed_types_from(alloc, assign, items, results)?;
            return Ok(Some(Tys::from_vec(alloc, results)?));
        }
    }
    Ok(None)
}

// The results of types, after those of the first ones.
#[cycle(changed_type)]
fn changed_types_from(
    alloc: Global,
    assign: &Assign,
    items: &[Ty],
    mut results: Vec<Ty>,
) -> Result<Vec<Ty>, NoMemory>
    requires shaped { Instantiates assign.now (ContextIsShaped (types_of items.now)) }
    requires first { InstantiatedContext (assigning assign.now) (types_of (take (length results.items) items.now)) (types_of results.items) }
    ensures { IfOk result (λ results. InstantiatedContext (assigning assign.now) (types_of items.now) (types_of results.items)) }
{
    let first = results.len();
    for i in first..items.len() {
        let item = &items[i];
        let change = changed_type(alloc, assign, item)?;
        results.push(type_or(item, change)?)?;
    }
    Ok(results)
}

// A type whose binders and arguments may have changed.
fn with_parts(ty: &Ty, binders: Option<Tys>, args: Option<Terms>) -> Result<Option<Ty>, NoMemory>
    ensures { IfOk result (λ r. unwrap_or (option_map type_of r) (type_of ty.now) ≡ pis (unwrap_or binders ty.now.binders) (family ty.now.family (unwrap_or args ty.now.args))) }
{
    match binders {
        None => match args {
            None => Ok(None),
            Some(args) => Ok(Some(Ty {
                binders: ty.binders.copy()?,
                family: ty.family,
                args,
            })),
        },
        Some(binders) => Ok(Some(Ty {
            binders,
            family: ty.family,
            args: terms_or(&ty.args, args)?,
        })),
    }
}

// Equal types, the first so many, in a vector with room for all.
pub(crate) fn type_copies(alloc: Global, items: &[Ty], count: usize) -> Result<Vec<Ty>, NoMemory>
    requires { count ≤ length items.now }
    ensures { IfOk result (λ copies. types_of copies.items ≡ types_of (take count items.now)) }
{
    let mut copies = Vec::with_capacity(alloc, items.len())?;
    for i in 0..count {
        copies.push(items[i].copy()?)?;
    }
    Ok(copies)
}

// What a type changed to, or else an equal type.
pub(crate) fn type_or(ty: &Ty, change: Option<Ty>) -> Result<Ty, NoMemory>
    ensures { IfOk result (λ r. type_of r ≡ unwrap_or (option_map type_of change) (type_of ty.now)) }
{
    match change {
        None => ty.copy(),
        Some(other) => Ok(other),
    }
}

// What a list changed to, or else an equal list.
pub(crate) fn types_or(types: &Tys, change: Option<Tys>) -> Result<Tys, NoMemory>
    ensures { IfOk result (λ r. r ≡ unwrap_or change types.now) }
{
    match change {
        None => types.copy(),
        Some(others) => Ok(others),
    }
}
