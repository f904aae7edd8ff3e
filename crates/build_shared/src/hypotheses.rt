//! Hypotheses of a context.

ghost use Rattle.std.specs.Prelude.{◌≡◌, IfOk, map};
ghost use Rattle.lf_definitions.specs.Renaming.{next_by, rename_type};
ghost use Rattle.lf_terms.specs.Types.{type_of};
ghost use Rattle.applications.specs.Candidates.{hypotheses_of, places_of};
ghost use Rattle.build_shared.specs.Conditions.{HasShapes, ContextHasShapes};
ghost use Rattle.build_shared.specs.Seen.{seen_hypothesis};

use basics::{Ids, NoMemory};
use lf_terms::subst::put_type;
use lf_terms::{Ctx, Ty};
use std::alloc::Global;

/// A hypothesis: its place in a context, from 0, and its type as it is seen from the whole context.
#[derive(Drop)]
pub struct Hypothesis {
    pub place: u32,
    pub ty: Ty,
}

/// The hypotheses of a context, oldest first. A closed type is shared, in one step.
pub fn hypotheses(alloc: Global, ctx: &Ctx) -> Result<Vec<Hypothesis>, NoMemory>
    requires { ContextHasShapes ctx.now }
    ensures { IfOk result (λ found. map seen_hypothesis found.items ≡ hypotheses_of ctx.now) }
{
    let types = ctx.as_slice();
    let count = types.len();
    if count > u32::MAX as usize {
        return Err(NoMemory);
    }
    let mut found = Vec::with_capacity(alloc, count)?;
    for i in 0..count {
        let ty = raised(alloc, (count - i) as u32, &types[i])?;
        found.push(Hypothesis {
            place: i as u32,
            ty,
        })?;
    }
    Ok(found)
}

/// A type as it is seen under so many more variables.
pub fn raised(alloc: Global, by: u32, ty: &Ty) -> Result<Ty, NoMemory>
    requires { HasShapes (type_of ty.now) }
    ensures { IfOk result (λ r. type_of r ≡ rename_type (next_by by) (type_of ty.now)) }
{
    put_type(alloc, &[], &[], by, ty)
}

/// The places of a context, oldest first.
pub fn places(alloc: Global, ctx: &Ctx) -> Result<Ids, NoMemory>
    ensures { IfOk result (λ places. places ≡ places_of ctx.now) }
{
    let count = ctx.len();
    if count > u32::MAX as usize {
        return Err(NoMemory);
    }
    let mut found = Ids::new(alloc);
    for i in 0..count {
        found.push(i as u32)?;
    }
    Ok(found)
}
