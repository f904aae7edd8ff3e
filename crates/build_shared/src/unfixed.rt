//! Arguments that aren't fixed to hypotheses.

ghost use Rattle.std.specs.Prelude.{◌≡◌, ◌++◌, [], IfOk, OnOk, is_some};
ghost use Rattle.opening_laws.specs.Openings.{fixed_to};
ghost use Rattle.applications.specs.Candidates.{skipping, unfixed_marks};

use basics::{NoMemory, Pairs};
use std::alloc::Global;

/// The marks of the arguments that aren't fixed. The fixed ones are few: each argument is compared with all of them.
pub fn unfixed_marks(alloc: Global, fixed: &Pairs, marks: &[bool]) -> Result<Vec<bool>, NoMemory>
    ensures { IfOk result (λ left. left.items ≡ unfixed_marks fixed.now 0 marks.now) }
{
    let mut left = Vec::new(alloc);
    for i in 0..marks.len() {
        add_unfixed(fixed, i, marks[i], &mut left)?;
    }
    Ok(left)
}

// Adds the mark of an argument that isn't fixed.
fn add_unfixed(fixed: &Pairs, i: usize, mark: bool, left: &mut Vec<bool>) -> Result<(), NoMemory>
    ensures { OnOk result (left.new.items ≡ left.old.items ++ skipping (fixed_to fixed.now i) mark []) }
{
    if is_fixed(fixed, i) {
        return Ok(());
    }
    left.push(mark)?;
    Ok(())
}

fn is_fixed(fixed: &Pairs, i: usize) -> bool
    ensures { result ≡ is_some (fixed_to fixed.now i) }
{
    let pairs = fixed.as_slice();
    for k in 0..pairs.len() {
        let (argument, _) = pairs[k];
        if argument as usize == i {
            return true;
        }
    }
    false
}
