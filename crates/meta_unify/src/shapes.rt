//! Shapes of a pattern's arguments.

ghost use Rattle.std.specs.Prelude.{◌≡◌, IfOk};
ghost use Rattle.lf_terms.specs.Shapes.{simple_type_of};
ghost use Rattle.lf_terms.specs.Terms.{term_of};
ghost use Rattle.meta_unify.specs.Shapes.{shape_shown, shapes_shown};

use basics::NoMemory;
use lf_terms::{Shape, Shapes, Term, Terms};
use std::alloc::Global;

// The shape of a variable, from its eta-long form.
#[cycle(shapes)]
fn shape_shown(alloc: Global, term: &Term) -> Result<Shape, NoMemory>
    ensures { IfOk result (λ shape. simple_type_of shape ≡ shape_shown (term_of term.now)) }
{
    match term {
        Term::Lam(body) => shape_shown(alloc, body.term()),
        Term::At(_, args) => {
            let args = shapes_shown(alloc, args)?;
            Ok(Shape { args })
        }
    }
}

// The shapes of variables, from their eta-long forms.
#[cycle(shapes)]
pub fn shapes_shown(alloc: Global, terms: &Terms) -> Result<Shapes, NoMemory>
    ensures { IfOk result (λ shapes. shapes ≡ shapes_shown terms.now) }
{
    let items = terms.as_slice();
    let mut shapes = Vec::with_capacity(alloc, items.len())?;
    for i in 0..items.len() {
        shapes.push(shape_shown(alloc, &items[i])?)?;
    }
    Shapes::from_vec(alloc, shapes)
}
