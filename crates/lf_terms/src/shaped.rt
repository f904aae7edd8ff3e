//! Whether terms are shaped.

ghost use Rattle.std.specs.Prelude.{◌≡◌, ◌↔◌, IsTrue, MatchOption, option_map};
ghost use Rattle.lf_definitions.specs.Syntax.{bound, arrows, base, lams};
ghost use Rattle.lf_definitions.specs.Shaping.{Shaped, ShapedSpine, under_all, shapes_in, globals, shape_at, shape_of_metavariable};
ghost use Rattle.lf_terms.specs.LocalShapes.{scope_under, no_globals};
ghost use Rattle.lf_terms.specs.Putting.{HasLams};
ghost use Rattle.lf_terms.specs.Shapes.{simple_type_of};
ghost use Rattle.lf_terms.specs.Terms.{head_of, term_of};

use crate::head::Head;
use crate::shape::{MetaShapes, Shape, Shapes};
use crate::term::{Term, Terms};

// The variables of a context, and of the abstractions above a place in a term, those of one prefix together.
#[derive(Clone, Copy)]
enum LocalShapes<'a> {
    Context(&'a Shapes),
    Under(&'a Shapes, &'a LocalShapes<'a>),
}

/// Whether a term is eta-long of a shape. It takes no memory.
pub fn shaped(sig: &Shapes, metas: &MetaShapes, ctx: &Shapes, term: &Term, shape: &Shape) -> bool
    ensures { IsTrue result ↔ Shaped (shapes_in sig.now metas.now ctx.now) (term_of term.now) (simple_type_of shape.now) }
{
    shaped_in(sig, metas, &LocalShapes::Context(ctx), term, &shape.args)
}

// Whether a term is of the shape with these arguments.
#[cycle(shaped)]
fn shaped_in<'a>(
    sig: &'a Shapes,
    metas: &'a MetaShapes,
    scope: &'a LocalShapes<'a>,
    term: &'a Term,
    shapes: &'a Shapes,
) -> bool
    ensures { IsTrue result ↔ Shaped (scope_under (globals sig.now metas.now) scope.now) (term_of term.now) (arrows shapes.now base) }
{
    match body_under(term, shapes.len()) {
        None => false,
        Some(body) => shaped_at(sig, metas, &LocalShapes::Under(shapes, scope), body),
    }
}

// Whether a spine is shaped at the base.
#[cycle(shaped)]
fn shaped_at<'a>(
    sig: &'a Shapes,
    metas: &'a MetaShapes,
    scope: &'a LocalShapes<'a>,
    body: &'a Term,
) -> bool
    ensures { IsTrue result ↔ Shaped (scope_under (globals sig.now metas.now) scope.now) (term_of body.now) base }
{
    match body {
        Term::Lam(_) => false,
        Term::At(head, args) => match shape_of_head(sig, metas, scope, *head) {
            None => false,
            Some(shapes) => shaped_args(sig, metas, scope, args, shapes),
        },
    }
}

// Whether the arguments of a spine are those that a shape with these arguments takes.
#[cycle(shaped)]
fn shaped_args<'a>(
    sig: &'a Shapes,
    metas: &'a MetaShapes,
    scope: &'a LocalShapes<'a>,
    args: &'a Terms,
    shapes: &'a Shapes,
) -> bool
    ensures { IsTrue result ↔ ShapedSpine (scope_under (globals sig.now metas.now) scope.now) args.now (arrows shapes.now base) }
{
    let terms = args.as_slice();
    let shapes = shapes.as_slice();
    if terms.len() != shapes.len() {
        return false;
    }
    for i in 0..terms.len() {
        if !shaped_in(sig, metas, scope, &terms[i], &shapes[i].args) {
            return false;
        }
    }
    true
}

// The shape of a head, as its arguments, if it may occur.
fn shape_of_head<'a>(
    sig: &'a Shapes,
    metas: &'a MetaShapes,
    scope: &'a LocalShapes<'a>,
    head: Head,
) -> Option<&'a Shapes>
    ensures { option_map (λ shapes. arrows shapes.now base) result ≡ scope_under (globals sig.now metas.now) scope.now (head_of head) }
{
    match head {
        Head::Bound(number) => shape_of_variable(scope, number as usize),
        Head::Const(number) => entry(sig, number as usize),
        Head::Meta(goal) => shape_of_metavariable(metas, goal),
    }
}

// The shape of a variable. It goes from prefix to prefix.
fn shape_of_variable<'a>(scope: &'a LocalShapes<'a>, number: usize) -> Option<&'a Shapes>
    ensures { option_map (λ shapes. arrows shapes.now base) result ≡ scope_under no_globals scope.now (bound number) }
{
    match scope {
        LocalShapes::Context(ctx) => newest(ctx, number),
        LocalShapes::Under(shapes, outside) => {
            let count = shapes.len();
            if number < count {
                newest(shapes, number)
            } else {
                shape_of_variable(outside, number - count)
            }
        }
    }
}

// The entry of a list at a place.
fn entry<'a>(shapes: &'a Shapes, place: usize) -> Option<&'a Shapes>
    ensures { option_map (λ shapes. arrows shapes.now base) result ≡ shape_at shapes.now place }
{
    let items = shapes.as_slice();
    if place < items.len() {
        Some(&items[place].args)
    } else {
        None
    }
}

// The entry of a list at a place from its end.
fn newest<'a>(shapes: &'a Shapes, number: usize) -> Option<&'a Shapes>
    ensures { option_map (λ shapes. arrows shapes.now base) result ≡ under_all shapes.now no_globals (bound number) }
{
    let items = shapes.as_slice();
    let count = items.len();
    if number < count {
        Some(&items[count - 1 - number].args)
    } else {
        None
    }
}

// The shape that a metavariable has in a list.
fn shape_of_metavariable<'a>(metas: &'a MetaShapes, goal: u32) -> Option<&'a Shapes>
    ensures { option_map (λ shapes. arrows shapes.now base) result ≡ shape_of_metavariable metas.now goal }
{
    let items = metas.as_slice();
    for meta in items {
        if meta.id == goal {
            return Some(&meta.args);
        }
    }
    None
}

// The body under as many abstractions, if there are as many.
fn body_under(term: &Term, count: usize) -> Option<&Term>
    ensures { MatchOption result (HasLams count (term_of term.now) → ⊥) (λ body. term_of term.now ≡ lams count (term_of body.now)) }
{
    let mut body = term;
    for _ in 0..count {
        match body {
            Term::Lam(inner) => body = inner.term(),
            Term::At(..) => return None,
        }
    }
    Some(body)
}
