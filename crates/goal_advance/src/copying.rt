//! Equal assignments.

ghost use Rattle.std.specs.Prelude.{◌≡◌, ◌≢◌, ◌++◌, [], ◌∷◌, AllPairs, IfOk, OnOk, None};
ghost use Rattle.lf_terms.specs.Terms.{term_of};
ghost use Rattle.meta_goals.specs.Bindings.{LfBinding, binding_for};
ghost use Rattle.build_shared.specs.Whole.{with_body};

use basics::NoMemory;
use lf_terms::term::copy;
use meta_goals::{Assign, Entry};
use std::alloc::Global;

/// An equal assignment, which shares the bodies.
pub fn copied(alloc: Global, assign: &Assign) -> Result<Assign, NoMemory>
    requires { AllPairs (λ (b : LfBinding) c. b.number ≢ c.number) assign.now }
    ensures { IfOk result (λ all. all ≡ assign.now) }
{
    let mut all = Assign::new(alloc);
    for place in 0..assign.len() {
        match assign.at(place) {
            None => unreachable!(),
            Some((id, entry)) => add_copy(id, entry, &mut all)?,
        }
    }
    Ok(all)
}

// Adds an equal entry.
fn add_copy(id: u32, entry: &Entry, all: &mut Assign) -> Result<(), NoMemory>
    requires { binding_for all.old id ≡ None }
    ensures { OnOk result (all.new ≡ all.old ++ with_body id entry.now.shapes (term_of entry.now.body) ∷ []) }
{
    let shapes = entry.shapes.copy()?;
    let body = copy(&entry.body)?;
    all.push(id, Entry { shapes, body })?;
    Ok(())
}
