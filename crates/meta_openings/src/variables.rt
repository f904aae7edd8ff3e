//! The variables of the kept entries.

ghost use Rattle.std.specs.Prelude.{◌≡◌, ◌<◌, length, false, slice_index_or, IfOk, OnOk};
ghost use Rattle.lf_definitions.specs.Syntax.{Context, joined, shapes_of_types};
ghost use Rattle.lf_definitions.specs.Renaming.{next_by, rename_spine};
ghost use Rattle.lf_definitions.specs.Expansion.{eta};
ghost use Rattle.lf_terms.specs.Shapes.{simple_type_of};
ghost use Rattle.lf_terms.specs.Terms.{head_of, spine_of};
ghost use Rattle.opening_laws.specs.Openings.{AreKept, context_variable, kept_variables};
ghost use Rattle.meta_openings.specs.Tables.{AreTables};
ghost use Rattle.meta_openings.specs.Variables.{variable_if};

use crate::places::Places;
use basics::NoMemory;
use lf_terms::eta::{eta, raised};
use lf_terms::{Head, Shape, Shapes, Term, Terms};

/// The variable at a place of a context with so many entries. A number past its type is out of memory.
pub fn variable_at(count: usize, place: usize) -> Result<Head, NoMemory>
    ensures { IfOk result (λ head. head_of head ≡ context_variable count place) }
{
    let later = count.saturating_sub(place).saturating_sub(1);
    if later > u32::MAX as usize {
        return Err(NoMemory);
    }
    Ok(Head::Bound(later as u32))
}

/// The variables of the kept entries of a context with entries of these shapes, as they are seen from under
/// so many more binders.
pub fn kept_variables(places: &Places<'_>, shapes: &Shapes, raise: usize) -> Result<Terms, NoMemory>
    requires { AreTables places.now (length shapes.now) }
    ensures { IfOk result (λ terms. (ctx entries : Context) → shapes.now ≡ shapes_of_types ctx → AreKept places.now.kept.now 0 ctx entries →
        terms ≡ rename_spine (next_by raise) (kept_variables places.now.kept.now (length ctx) entries)) }
{
    let items = shapes.as_slice();
    let count = items.len();
    let mut terms = Vec::with_capacity(places.alloc, places.kept.len())?;
    for place in 0..count {
        let variable = raised(variable_at(count, place)?, raise)?;
        add_variable(places, place, variable, &items[place], &mut terms)?;
    }
    Terms::from_vec(places.alloc, terms)
}

// Adds the variable of a place, if it is kept.
fn add_variable(
    places: &Places<'_>,
    place: usize,
    variable: Head,
    shape: &Shape,
    terms: &mut Vec<Term>,
) -> Result<(), NoMemory>
    requires { place < length places.now.marks.items }
    ensures { OnOk result (spine_of terms.new.items
        ≡ joined (spine_of terms.old.items) (variable_if (slice_index_or places.now.marks.items place false) (eta (head_of variable) (simple_type_of shape.now)))) }
{
    if places.marks[place] {
        terms.push(eta(places.alloc, variable, shape)?)?;
    }
    Ok(())
}
