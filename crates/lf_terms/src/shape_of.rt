//! The shapes of types.

ghost use Rattle.std.specs.Prelude.{◌≡◌, IfOk};
ghost use Rattle.lf_definitions.specs.Syntax.{shape_of, shapes_of_types};
ghost use Rattle.lf_terms.specs.Shapes.{simple_type_of};
ghost use Rattle.lf_terms.specs.Types.{type_of};

use crate::shape::{Shape, Shapes};
use crate::ty::{Ty, Tys};
use basics::NoMemory;
use std::alloc::Global;

/// The shape of a type: one argument for each binder.
#[cycle(shape_of)]
pub fn shape_of(alloc: Global, ty: &Ty) -> Result<Shape, NoMemory>
    ensures { IfOk result (λ shape. simple_type_of shape ≡ shape_of (type_of ty.now)) }
{
    let args = shapes_of(alloc, &ty.binders)?;
    Ok(Shape { args })
}

/// The shapes of the entries of a context, or of the binders of a type or a kind.
#[cycle(shape_of)]
pub fn shapes_of(alloc: Global, types: &Tys) -> Result<Shapes, NoMemory>
    ensures { IfOk result (λ shapes. shapes ≡ shapes_of_types types.now) }
{
    let items = types.as_slice();
    let mut shapes = Vec::with_capacity(alloc, items.len())?;
    for ty in items {
        shapes.push(shape_of(alloc, ty)?)?;
    }
    Shapes::from_vec(alloc, shapes)
}
