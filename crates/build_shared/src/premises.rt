//! Premises of a constant.

ghost use Rattle.std.specs.Prelude.{◌≡◌, IfOk, map, not};
ghost use Rattle.lf_terms.specs.Types.{type_of};
ghost use Rattle.applications.specs.Candidates.{premise_marks};

use basics::NoMemory;
use binder_marks::mentioned_binders;
use lf_terms::Ty;
use std::alloc::Global;

/// For each binder of a type, whether it is a premise: it occurs in no later binder and not in the conclusion.
pub fn premise_marks(alloc: Global, ty: &Ty) -> Result<Vec<bool>, NoMemory>
    ensures { IfOk result (λ marks. marks.items ≡ premise_marks (type_of ty.now)) }
{
    let mentioned = mentioned_binders(alloc, ty)?;
    turned(alloc, mentioned.as_slice())
}

// Each mark the other way round.
fn turned(alloc: Global, marks: &[bool]) -> Result<Vec<bool>, NoMemory>
    ensures { IfOk result (λ turned. turned.items ≡ map not marks.now) }
{
    let opposite = marks.iter().map(|mark| !*mark).collect(alloc)?;
    Ok(opposite)
}
