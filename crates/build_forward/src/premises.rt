//! The premises of a type, by their numbers.

ghost use Rattle.std.specs.Prelude.{◌≡◌, ◌++◌, ◌∷◌, [], IfOk, OnOk};
ghost use Rattle.build_forward.specs.Onwards.{marked_from};

use basics::{Ids, NoMemory};
use std::alloc::Global;

// The places of the marks that are true.
pub fn premises_of(alloc: Global, marks: &[bool]) -> Result<Ids, NoMemory>
    ensures { IfOk result (λ premises. premises ≡ marked_from 0 marks.now) }
{
    let count = marks.len();
    if count > u32::MAX as usize {
        return Err(NoMemory);
    }
    let mut premises = Ids::new(alloc);
    for i in 0..count {
        add_premise(marks[i], i as u32, &mut premises)?;
    }
    Ok(premises)
}

// Adds the place of a mark, if it is true.
fn add_premise(mark: bool, place: u32, premises: &mut Ids) -> Result<(), NoMemory>
    ensures { OnOk result (premises.new ≡ premises.old ++ marked_from place (mark ∷ [])) }
{
    if mark {
        return premises.push(place);
    }
    Ok(())
}
