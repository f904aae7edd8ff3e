//! Opening a type.

ghost use Rattle.std.specs.Prelude.{IfOk};
ghost use Rattle.lf_terms.specs.Types.{type_of};
ghost use Rattle.opening_laws.specs.Openings.{IsOpened};
ghost use Rattle.meta_openings.specs.Results.{IsOpenable, opened_type_of};

use crate::arguments::open_arguments;
use crate::entries::kept_entries;
use crate::fresh::Setting;
use crate::places::{Places, places_of};
use crate::variables::kept_variables;
use basics::{Ids, NoMemory, Pairs};
use lf_terms::shape_of::shapes_of;
use lf_terms::subst::put_all;
use lf_terms::{Atom, Ctx, GoalList, Terms, Ty};
use std::alloc::Global;

/// What a type is opened to: the terms of its arguments, the fresh goals, and its conclusion.
#[derive(Drop)]
pub struct Opened {
    pub terms: Terms,
    pub fresh: GoalList,
    pub conclusion: Atom,
}

/// Opens a type in a context, with these places kept and these arguments fixed to hypotheses. The fresh goals
/// are numbered from `first` on, and a number past its type is out of memory.
pub fn open_args(
    alloc: Global,
    ctx: &Ctx,
    kept: &Ids,
    ty: &Ty,
    fixed: &Pairs,
    first: u32,
) -> Result<Opened, NoMemory>
    requires { IsOpenable ctx.now kept.now fixed.now first (type_of ty.now) }
    ensures { IfOk result (λ opened. IsOpened ctx.now kept.now fixed.now first (type_of ty.now) (opened_type_of opened)) }
{
    let places = places_of(alloc, kept, ctx.len())?;
    let shapes = shapes_of(alloc, ctx)?;
    let entries = kept_entries(&places, ctx)?;
    let variables = kept_variables(&places, &shapes, 0)?;
    let setting = Setting {
        places: &places,
        shapes: &shapes,
        entries: &entries,
        variables: &variables,
        first,
    };
    let arguments = shapes_of(alloc, &ty.binders)?;
    let opened = open_arguments(&setting, fixed, &arguments, ty)?;
    let args = put_all(
        alloc,
        arguments.as_slice(),
        opened.terms.as_slice(),
        0,
        &ty.args,
    )?;
    let conclusion = Atom {
        family: ty.family,
        args,
    };
    Ok(Opened {
        terms: Terms::from_vec(alloc, opened.terms)?,
        fresh: GoalList::from_vec(opened.goals),
        conclusion,
    })
}
