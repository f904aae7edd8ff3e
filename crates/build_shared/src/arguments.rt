//! Arguments of opened types.

ghost use Rattle.std.specs.Prelude.{◌≡◌, IfOk};
ghost use Rattle.lf_terms.specs.Types.{type_of};
ghost use Rattle.meta_openings.specs.Results.{opened_type_of};
ghost use Rattle.applications.specs.Candidates.{argument_type};
ghost use Rattle.application_laws.specs.Conditions.{HasAtomAt};
ghost use Rattle.build_shared.specs.ArgumentTypes.{HasShapedTerms};
ghost use Rattle.build_shared.specs.Seen.{seen_atom};

use basics::NoMemory;
use lf_terms::shape_of::shapes_of;
use lf_terms::subst::put_all;
use lf_terms::{Atom, Ty};
use meta_openings::Opened;
use std::alloc::Global;

/// The type of the argument at a place, from 0, of a type that was opened: it has no binders, and the terms before it are substituted.
/// A scope is asked for in which the type and the terms are shaped.
pub fn argument_type(alloc: Global, ty: &Ty, opened: &Opened, k: usize) -> Result<Atom, NoMemory>
    requires shaped { HasShapedTerms (type_of ty.now) opened.now.terms }
    requires atomic { HasAtomAt (type_of ty.now) k }
    ensures { IfOk result (λ atom. seen_atom atom ≡ argument_type (type_of ty.now) (opened_type_of opened.now) k) }
{
    let binders = ty.binders.as_slice();
    let terms = opened.terms.as_slice();
    let shapes = shapes_of(alloc, &ty.binders)?;
    let items = shapes.as_slice();
    let binder = &binders[k];
    let args = put_all(alloc, &items[..k], &terms[..k], 0, &binder.args)?;
    let family = binder.family;
    Ok(Atom { family, args })
}
