//! Where the major argument occurs.

ghost use Rattle.std.specs.Prelude.{◌≡◌, IfOk};
ghost use Rattle.lf_terms.specs.Types.{type_of};
ghost use Rattle.applications.specs.Candidates.{occurs_later, occurs_at_end};

use basics::NoMemory;
use build_shared::variables::{occurs_among, occurs_in_types};
use lf_terms::Ty;

// Whether the binder at a place occurs in a later one.
pub fn occurs_later(ty: &Ty, place: usize) -> Result<bool, NoMemory>
    ensures { IfOk result (λ occurs. occurs ≡ occurs_later (type_of ty.now) place) }
{
    let binders = ty.binders.as_slice();
    let count = binders.len();
    if place >= count {
        return Ok(false);
    }
    let occurs = occurs_in_types(0, &binders[place + 1..])?;
    Ok(occurs)
}

// Whether it occurs in the conclusion.
pub fn occurs_at_end(ty: &Ty, place: usize) -> Result<bool, NoMemory>
    ensures { IfOk result (λ occurs. occurs ≡ occurs_at_end (type_of ty.now) place) }
{
    let count = ty.binders.len();
    if place >= count {
        return Ok(false);
    }
    let number = count - 1 - place;
    if number > u32::MAX as usize {
        return Err(NoMemory);
    }
    let occurs = occurs_among(number as u32, &ty.args)?;
    Ok(occurs)
}
