//! The walk over a type or a kind: from left to right, down to the first failure.

ghost use Rattle.std.specs.Prelude.{IfOk};
ghost use Rattle.lf_definitions.specs.Syntax.{family};
ghost use Rattle.lf_definitions.specs.Typing.{Formed, FormedContext};
ghost use Rattle.lf_definitions.specs.Failures.{FailsType, FailsTypeFrom, FailsContextFrom};
ghost use Rattle.lf_definitions.specs.Signatures.{kinds_in};
ghost use Rattle.lf_kernel.specs.Checks.{Walks};
ghost use Rattle.lf_kernel.specs.Heads.{typing_of};
ghost use Rattle.lf_kernel.specs.ShapedPlaces.{ShapedAt};
ghost use Rattle.lf_terms.specs.Types.{type_of, types_of};

use crate::local_context::LocalContext;
use crate::path::step;
use crate::place::Place;
use crate::walk::walk_args;
use basics::{Ids, NoMemory};
use lf_terms::shape_of::shapes_of;
use lf_terms::{Terms, Ty};

// Whether binders are well formed, each in the scope of those before it, or the path at which one fails.
#[cycle(walk_type)]
pub fn walk_binders<'a>(place: &'a Place<'a>, binders: &'a [Ty]) -> Result<Option<Ids>, NoMemory>
    requires { ShapedAt place.now }
    ensures { IfOk result (λ r. Walks (FormedContext (kinds_in place.now.sig.now) (typing_of place.now) (types_of binders.now)) (FailsContextFrom (kinds_in place.now.sig.now) (typing_of place.now) (types_of binders.now) 0) r) }
{
    for i in 0..binders.len() {
        let scope = LocalContext::Under(&binders[..i], place.scope);
        let inside = Place {
            scope: &scope,
            ..*place
        };
        match walk_type(&inside, &binders[i])? {
            None => {}
            Some(path) => return Ok(Some(step(path, i)?)),
        }
    }
    Ok(None)
}

// The same for a type: its binders, and then its family with the arguments.
#[cycle(walk_type)]
pub fn walk_type<'a>(place: &'a Place<'a>, ty: &'a Ty) -> Result<Option<Ids>, NoMemory>
    requires { ShapedAt place.now }
    ensures { IfOk result (λ r. Walks (Formed (kinds_in place.now.sig.now) (typing_of place.now) (type_of ty.now)) (FailsType (kinds_in place.now.sig.now) (typing_of place.now) (type_of ty.now)) r) }
{
    let binders = ty.binders.as_slice();
    match walk_binders(place, binders)? {
        Some(path) => Ok(Some(path)),
        None => {
            let scope = LocalContext::Under(binders, place.scope);
            let inside = Place {
                scope: &scope,
                ..*place
            };
            walk_family(&inside, ty.family, &ty.args, binders.len())
        }
    }
}

// The same for a family with arguments, the first of which is this child.
fn walk_family<'a>(
    place: &'a Place<'a>,
    number: u32,
    args: &'a Terms,
    first: usize,
) -> Result<Option<Ids>, NoMemory>
    requires { ShapedAt place.now }
    ensures { IfOk result (λ r. Walks (Formed (kinds_in place.now.sig.now) (typing_of place.now) (family number args.now)) (FailsTypeFrom (kinds_in place.now.sig.now) (typing_of place.now) (family number args.now) first) r) }
{
    if number >= place.sig.families() {
        return Ok(Some(Ids::new(place.alloc)));
    }
    let binders = &place.sig.kind_of(number).binders;
    if args.len() != binders.len() {
        return Ok(Some(Ids::new(place.alloc)));
    }
    let shapes = shapes_of(place.alloc, binders)?;
    walk_args(&*place, &*binders, &shapes, 0, &*args, first)
}
