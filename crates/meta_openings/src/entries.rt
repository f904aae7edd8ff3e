//! The kept entries of a context.

ghost use Rattle.std.specs.Prelude.{◌≡◌, ◌<◌, ◌++◌, length, false, slice_index_or, IfOk, OnOk};
ghost use Rattle.lf_definitions.specs.Syntax.{LfType, Context};
ghost use Rattle.lf_definitions.specs.Renaming.{rename_type};
ghost use Rattle.lf_terms.specs.Types.{type_of, types_of};
ghost use Rattle.opening_laws.specs.Openings.{AreKept, keeping};
ghost use Rattle.meta_openings.specs.Counts.{by_counts};
ghost use Rattle.meta_openings.specs.Tables.{AreTables, one_if};

use crate::places::Places;
use crate::renaming::renamed_type;
use basics::NoMemory;
use lf_terms::{Ctx, Ty, Tys};

/// The kept entries by themselves. Where all are kept they are shared.
pub fn kept_entries(places: &Places<'_>, ctx: &Ctx) -> Result<Ctx, NoMemory>
    requires tables { AreTables places.now (length ctx.now) }
    requires kept { (entries : Context) × AreKept places.now.kept.now 0 ctx.now entries }
    ensures { IfOk result (λ entries. AreKept places.now.kept.now 0 ctx.now entries) }
{
    let types = ctx.as_slice();
    if places.before[types.len()] == types.len() {
        return ctx.copy();
    }
    let mut entries = Vec::with_capacity(places.alloc, places.kept.len())?;
    for place in 0..types.len() {
        add_entry(places, place, &types[place], &mut entries)?;
    }
    Tys::from_vec(places.alloc, entries)
}

// Adds the entry at a place, if it is kept.
fn add_entry(
    places: &Places<'_>,
    place: usize,
    ty: &Ty,
    entries: &mut Vec<Ty>,
) -> Result<(), NoMemory>
    requires mark { place < length places.now.marks.items }
    requires count { place < length places.now.before.items }
    ensures { OnOk result (types_of entries.new.items
        ≡ types_of entries.old.items ++ one_if (slice_index_or places.now.marks.items place false) (rename_type (by_counts places.now.before.items place) (type_of ty.now))) }
{
    if places.marks[place] {
        entries.push(renamed_type(places.alloc, places.before.as_slice(), place, 0, ty)?)?;
    }
    Ok(())
}

/// A type in the context, as it is seen among the kept entries. Where all are kept it is the type.
pub fn among_kept(places: &Places<'_>, count: usize, ty: Ty) -> Result<Ty, NoMemory>
    requires { AreTables places.now count }
    ensures { IfOk result (λ r. (inside : LfType) → rename_type (keeping places.now.kept.now count) inside ≡ type_of ty → type_of r ≡ inside) }
{
    if places.before[count] == count {
        return Ok(ty);
    }
    renamed_type(places.alloc, places.before.as_slice(), count, 0, &ty)
}
