//! Lists one after another.

ghost use Rattle.std.specs.Prelude.{◌≡◌, ◌++◌, IfOk, OnOk};
ghost use Rattle.lf_definitions.specs.Syntax.{joined};
ghost use Rattle.lf_terms.specs.Terms.{spine_of};
ghost use Rattle.lf_terms.specs.Types.{types_of};

use basics::NoMemory;
use lf_terms::term::copy;
use lf_terms::{Ctx, Term, Terms, Ty, Tys};
use std::alloc::Global;

/// A context with more entries. Where there are none it is shared.
pub fn followed(alloc: Global, ctx: &Ctx, more: &Tys) -> Result<Ctx, NoMemory>
    ensures { IfOk result (λ types. types ≡ ctx.now ++ more.now) }
{
    if more.len() == 0 {
        return ctx.copy();
    }
    let mut types = Vec::new(alloc);
    add_types(&mut types, ctx.as_slice())?;
    add_types(&mut types, more.as_slice())?;
    Tys::from_vec(alloc, types)
}

fn add_types(types: &mut Vec<Ty>, more: &[Ty]) -> Result<(), NoMemory>
    ensures { OnOk result (types_of types.new.items ≡ types_of types.old.items ++ types_of more.now) }
{
    for i in 0..more.len() {
        types.push(more[i].copy()?)?;
    }
    Ok(())
}

/// A list of terms and then another.
pub fn joined(alloc: Global, first: &Terms, second: &Terms) -> Result<Terms, NoMemory>
    ensures { IfOk result (λ terms. terms ≡ joined first.now second.now) }
{
    let mut terms = Vec::new(alloc);
    add_terms(&mut terms, first.as_slice())?;
    add_terms(&mut terms, second.as_slice())?;
    Terms::from_vec(alloc, terms)
}

fn add_terms(terms: &mut Vec<Term>, more: &[Term]) -> Result<(), NoMemory>
    ensures { OnOk result (spine_of terms.new.items ≡ joined (spine_of terms.old.items) (spine_of more.now)) }
{
    for i in 0..more.len() {
        terms.push(copy(&more[i])?)?;
    }
    Ok(())
}
