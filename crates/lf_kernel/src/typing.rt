//! Checks of terms and types.

ghost use Rattle.std.specs.Prelude.{[], IfOk};
ghost use Rattle.lf_definitions.specs.Signatures.{kinds_in, typing_in};
ghost use Rattle.lf_definitions.specs.ShapedGoals.{ShapedTypeIn, ShapedContextIn, ShapedGoals};
ghost use Rattle.lf_kernel.specs.Checks.{Checks, ChecksType, ChecksKind};
ghost use Rattle.lf_terms.specs.Terms.{term_of};
ghost use Rattle.lf_terms.specs.Types.{type_of};

use crate::answer::{Check, answer_of};
use crate::local_context::LocalContext;
use crate::place::Place;
use crate::walk::walk_term;
use crate::walk_type::{walk_binders, walk_type};
use basics::NoMemory;
use lf_terms::{Ctx, GoalList, Kind, Signature, Term, Ty};
use std::alloc::Global;

/// Whether a term has a type, in a context over a signature, with goals as metavariables. `Ill` carries the
/// path of the first failure. The term is any term: heads that may not occur are failures. It walks once
/// over the term, from left to right, and ends at the first failure. `NoMemory` comes when memory runs out.
pub fn check(
    alloc: Global,
    sig: &Signature,
    metas: &GoalList,
    ctx: &Ctx,
    term: &Term,
    ty: &Ty,
) -> Result<Check, NoMemory>
    requires goals { ShapedGoals sig.now metas.now }
    requires context { ShapedContextIn sig.now metas.now [] ctx.now }
    requires expected { ShapedTypeIn sig.now metas.now ctx.now (type_of ty.now) }
    ensures { IfOk result (λ answer. Checks (typing_in sig.now metas.now ctx.now) (term_of term.now) (type_of ty.now) answer) }
{
    sig.is_formed();
    let closed = LocalContext::Closed;
    let types = ctx.as_slice();
    let scope = LocalContext::Under(types, &closed);
    let place = Place {
        alloc,
        sig,
        metas,
        scope: &scope,
    };
    let found = walk_term(&place, term, ty)?;
    Ok(answer_of(found))
}

/// The same of a type: whether it is well formed. The type is any type.
pub fn check_type(
    alloc: Global,
    sig: &Signature,
    metas: &GoalList,
    ctx: &Ctx,
    ty: &Ty,
) -> Result<Check, NoMemory>
    requires goals { ShapedGoals sig.now metas.now }
    requires context { ShapedContextIn sig.now metas.now [] ctx.now }
    ensures { IfOk result (λ answer. ChecksType (kinds_in sig.now) (typing_in sig.now metas.now ctx.now) (type_of ty.now) answer) }
{
    sig.is_formed();
    let closed = LocalContext::Closed;
    let types = ctx.as_slice();
    let scope = LocalContext::Under(types, &closed);
    let place = Place {
        alloc,
        sig,
        metas,
        scope: &scope,
    };
    let found = walk_type(&place, ty)?;
    Ok(answer_of(found))
}

/// The same of a kind, with no variables and no metavariables.
pub fn check_kind(alloc: Global, sig: &Signature, kind: &Kind) -> Result<Check, NoMemory>
    ensures { IfOk result (λ answer. ChecksKind (kinds_in sig.now) (typing_in sig.now [] []) kind.now.binders answer) }
{
    sig.is_formed();
    let metas = GoalList::new(alloc);
    let place = Place {
        alloc,
        sig,
        metas: &metas,
        scope: &LocalContext::Closed,
    };
    let binders = kind.binders.as_slice();
    let found = walk_binders(&place, binders)?;
    Ok(answer_of(found))
}
