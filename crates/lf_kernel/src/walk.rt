//! The walk over a term: from left to right, down to the first failure.

ghost use Rattle.std.specs.Prelude.{◌≡◌, IfOk, List, Some, length};
ghost use Rattle.lf_definitions.specs.Syntax.{family, args_count, at, shapes_of_types};
ghost use Rattle.lf_definitions.specs.Renaming.{next_by, rename_context};
ghost use Rattle.lf_definitions.specs.Substitution.{stays};
ghost use Rattle.lf_definitions.specs.Typing.{Typed, TypedSpine};
ghost use Rattle.lf_definitions.specs.Failures.{FailsTerm, FailsSpine};
ghost use Rattle.lf_kernel.specs.Checks.{Walks};
ghost use Rattle.lf_kernel.specs.Heads.{typing_of, seen_type};
ghost use Rattle.lf_kernel.specs.ShapedPlaces.{ShapedAt, ShapedTypeAt, ShapedBindersAt};
ghost use Rattle.lf_kernel.specs.Results.{Gives};
ghost use Rattle.lf_terms.specs.Putting.{Puts, ArgsShaped};
ghost use Rattle.lf_terms.specs.Terms.{head_of, term_of};
ghost use Rattle.lf_terms.specs.Types.{type_of};

use crate::head_type::HeadType;
use crate::local_context::LocalContext;
use crate::path::{step, under};
use crate::place::{Place, type_at_place};
use crate::stripping::body_under;
use basics::{Ids, NoMemory};
use lf_terms::same::same_terms;
use lf_terms::shape_of::shapes_of;
use lf_terms::subst::{put_all, put_type};
use lf_terms::{Head, Shapes, Term, Terms, Ty, Tys};
use std::alloc::Global;

// Whether a term has a type, or the path at which it fails.
#[cycle(walk)]
pub fn walk_term<'a>(
    place: &'a Place<'a>,
    term: &'a Term,
    ty: &'a Ty,
) -> Result<Option<Ids>, NoMemory>
    requires typing { ShapedAt place.now }
    requires shaped { ShapedTypeAt place.now (type_of ty.now) }
    ensures { IfOk result (λ r. Walks (Typed (typing_of place.now) (term_of term.now) (type_of ty.now)) (FailsTerm (typing_of place.now) (term_of term.now) (type_of ty.now)) r) }
{
    let binders = ty.binders.as_slice();
    let count = binders.len();
    if count == 0 {
        return walk_body(place, term, ty);
    }
    match body_under(term, count) {
        Err(depth) => Ok(Some(under(Ids::new(place.alloc), depth)?)),
        Ok(body) => {
            let scope = LocalContext::Under(binders, place.scope);
            let inside = Place {
                scope: &scope,
                ..*place
            };
            match walk_body(&inside, body, ty)? {
                None => Ok(None),
                Some(path) => Ok(Some(under(path, count)?)),
            }
        }
    }
}

// The same for what is under the binders of the type.
#[cycle(walk)]
fn walk_body<'a>(place: &'a Place<'a>, body: &'a Term, ty: &'a Ty) -> Result<Option<Ids>, NoMemory>
    requires typing { ShapedAt place.now }
    ensures { IfOk result (λ r. Walks (Typed (typing_of place.now) (term_of body.now) (family ty.now.family ty.now.args)) (FailsTerm (typing_of place.now) (term_of body.now) (family ty.now.family ty.now.args)) r) }
{
    match body {
        Term::Lam(_) => Ok(Some(Ids::new(place.alloc))),
        Term::At(head, args) => walk_spine(place, *head, args, ty),
    }
}

// The same for a head with its arguments.
#[cycle(walk)]
fn walk_spine<'a>(
    place: &'a Place<'a>,
    head: Head,
    args: &'a Terms,
    ty: &'a Ty,
) -> Result<Option<Ids>, NoMemory>
    requires typing { ShapedAt place.now }
    ensures { IfOk result (λ r. Walks (Typed (typing_of place.now) (at (head_of head) args.now) (family ty.now.family ty.now.args)) (FailsTerm (typing_of place.now) (at (head_of head) args.now) (family ty.now.family ty.now.args)) r) }
{
    let Some(found) = type_at_place(place, head)? else {
        return Ok(Some(Ids::new(place.alloc)));
    };
    if args.len() != found.binders.len() {
        return Ok(Some(Ids::new(place.alloc)));
    }
    let shapes = binder_shapes(place, head, &found)?;
    match walk_args(&*place, &*found.binders, &shapes, found.raise, &*args, 0)? {
        Some(path) => Ok(Some(path)),
        None => {
            if gives(place.alloc, &found, &shapes, args, ty)? {
                Ok(None)
            } else {
                Ok(Some(Ids::new(place.alloc)))
            }
        }
    }
}

// The shapes of the binders of a head's type. Those of a constant's are the signature's, which are shared.
fn binder_shapes(place: &Place<'_>, head: Head, found: &HeadType<'_>) -> Result<Shapes, NoMemory>
    requires { seen_type (Some found.now) ≡ typing_of place.now (head_of head) }
    ensures { IfOk result (λ shapes. shapes ≡ shapes_of_types found.now.binders.now) }
{
    match head {
        Head::Const(number) => {
            let kept = place.sig.shapes().as_slice();
            kept[number as usize].args.copy()
        }
        Head::Bound(_) | Head::Meta(_) => shapes_of(place.alloc, found.binders),
    }
}

// Whether arguments have the types of binders, to which the variables outside have risen so far. The first
// of them is this child.
#[cycle(walk)]
pub fn walk_args<'a>(
    place: &'a Place<'a>,
    binders: &'a Tys,
    shapes: &'a Shapes,
    raise: u32,
    args: &'a Terms,
    first: usize,
) -> Result<Option<Ids>, NoMemory>
    requires typing { ShapedAt place.now }
    requires shaped { ShapedBindersAt place.now raise binders.now }
    requires shapes { shapes.now ≡ shapes_of_types binders.now }
    requires count { args_count args.now ≡ length binders.now }
    ensures { IfOk result (λ r. Walks (TypedSpine (typing_of place.now) stays args.now (rename_context (next_by raise) binders.now)) (FailsSpine (typing_of place.now) stays args.now (rename_context (next_by raise) binders.now) first) r) }
{
    let terms = args.as_slice();
    let types = binders.as_slice();
    let shapes = shapes.as_slice();
    for i in 0..terms.len() {
        let ty = put_type(place.alloc, &shapes[..i], &terms[..i], raise, &types[i])?;
        match walk_term(&*place, &terms[i], &ty)? {
            None => {}
            Some(path) => {
                if first > usize::MAX - i {
                    return Err(NoMemory);
                }
                return Ok(Some(step(path, first + i)?));
            }
        }
    }
    Ok(None)
}

// Whether a head with these arguments has what is under the binders of the type.
fn gives(
    alloc: Global,
    found: &HeadType<'_>,
    shapes: &Shapes,
    args: &Terms,
    ty: &Ty,
) -> Result<bool, NoMemory>
    requires { Puts args.now shapes.now found.now.raise 0 (ArgsShaped found.now.args.now) }
    ensures { IfOk result (λ same. Gives found.now args.now (family ty.now.family ty.now.args) same) }
{
    let made = put_all(
        alloc,
        shapes.as_slice(),
        args.as_slice(),
        found.raise,
        found.args,
    )?;
    Ok(found.family == ty.family && same_terms(&made, &ty.args))
}
