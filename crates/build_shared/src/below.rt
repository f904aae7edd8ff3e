//! Entries of numbers below another.

ghost use Rattle.std.specs.Prelude.{◌≡◌, ◌≢◌, ◌++◌, [], ◌∷◌, AllPairs, OnOk, None};
ghost use Rattle.lf_terms.specs.Terms.{term_of};
ghost use Rattle.meta_goals.specs.Bindings.{LfBinding, binding_for};
ghost use Rattle.build_shared.specs.Whole.{with_body, bindings_below};

use basics::NoMemory;
use lf_terms::term::copy;
use meta_goals::{Assign, Entry};

/// Adds the entries of numbers below another.
pub fn add_below(first: u32, entries: &Assign, below: &mut Assign) -> Result<(), NoMemory>
    requires { AllPairs (λ (b : LfBinding) c. b.number ≢ c.number) (below.old ++ entries.now) }
    ensures { OnOk result (below.new ≡ below.old ++ bindings_below first entries.now) }
{
    for place in 0..entries.len() {
        match entries.at(place) {
            None => unreachable!(),
            Some((id, entry)) => add_if_below(first, id, entry, below)?,
        }
    }
    Ok(())
}

// Adds an entry, if its number is below another.
fn add_if_below(first: u32, id: u32, entry: &Entry, below: &mut Assign) -> Result<(), NoMemory>
    requires { binding_for below.old id ≡ None }
    ensures { OnOk result (below.new ≡ below.old ++ bindings_below first (with_body id entry.now.shapes (term_of entry.now.body) ∷ [])) }
{
    if id < first {
        let shapes = entry.shapes.copy()?;
        let body = copy(&entry.body)?;
        below.push(id, Entry { shapes, body })?;
    }
    Ok(())
}
