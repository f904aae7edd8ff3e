//! Places of a context that are dropped, and whether types mention them.

ghost use Rattle.std.specs.Prelude.{◌≡◌, ◌<◌, ◌++◌, [], ◌∷◌, true, length, not, replicate, All, IfOk, OnOk, IsTrue};
ghost use Rattle.std.specs.List.{list_all};
ghost use Rattle.lf_definitions.specs.Syntax.{no_args, family, pis};
ghost use Rattle.head_laws.specs.Mentions.{occurs_in_type};
ghost use Rattle.unification.specs.Patterns.{has_number};
ghost use Rattle.lf_terms.specs.Types.{type_of, types_of};
ghost use Rattle.opening_laws.specs.Openings.{context_variable};
ghost use Rattle.applications.specs.Candidates.{without};

use crate::premises::premise_marks;
use basics::{Ids, NoMemory};
use lf_terms::{Terms, Ty, Tys};
use std::alloc::Global;

/// Whether a place is one of some places. Of a list of all places it is the one at its own number, so these are not walked over.
pub fn is_one_of(places: &Ids, place: u32) -> bool
    ensures { result ≡ has_number places.now place }
{
    let items = places.as_slice();
    if stands_at(items, place as usize, place) {
        return true;
    }
    for i in 0..items.len() {
        if items[i] == place {
            return true;
        }
    }
    false
}

// Whether a place stands at some number of a list.
fn stands_at(items: &[u32], number: usize, place: u32) -> bool
    ensures { IsTrue result → has_number items.now place ≡ true }
{
    if number >= items.len() {
        return false;
    }
    items[number] == place
}

/// All places but those that are dropped, in their order.
pub fn without(alloc: Global, dropped: &Ids, places: &Ids) -> Result<Ids, NoMemory>
    ensures { IfOk result (λ rest. rest ≡ without dropped.now places.now) }
{
    let mut rest = Ids::new(alloc);
    let items = places.as_slice();
    for i in 0..items.len() {
        add_unless(dropped, items[i], &mut rest)?;
    }
    Ok(rest)
}

// Adds a place unless it is dropped.
fn add_unless(dropped: &Ids, place: u32, rest: &mut Ids) -> Result<(), NoMemory>
    ensures { OnOk result (rest.new ≡ rest.old ++ without dropped.now (place ∷ [])) }
{
    if is_one_of(dropped, place) {
        return Ok(());
    }
    rest.push(place)
}

/// Whether a type in a context with so many entries mentions none of those at some places. Where there are none it is not walked over.
pub fn mentions_none_of(
    alloc: Global,
    count: usize,
    dropped: &Ids,
    ty: &Ty,
) -> Result<bool, NoMemory>
    requires { All (λ place. place < count) dropped.now }
    ensures { IfOk result (λ test. test ≡ list_all (λ place. not (occurs_in_type (context_variable count place) (type_of ty.now))) dropped.now) }
{
    if dropped.len() == 0 {
        return Ok(true);
    }
    let under = under_binders(alloc, count, ty)?;
    let marks = premise_marks(alloc, &under)?;
    let places = dropped.as_slice();
    for i in 0..places.len() {
        if !marks[places[i] as usize] {
            return Ok(false);
        }
    }
    Ok(true)
}

// A type under as many binders that mention nothing.
fn under_binders(alloc: Global, count: usize, ty: &Ty) -> Result<Ty, NoMemory>
    ensures { IfOk result (λ under. type_of under ≡ pis (replicate count (family 0 no_args)) (type_of ty.now)) }
{
    let mut types = Vec::new(alloc);
    add_blanks(&mut types, count)?;
    let items = ty.binders.as_slice();
    for i in 0..items.len() {
        types.push(items[i].copy()?)?;
    }
    let args = ty.args.copy()?;
    Ok(Ty {
        binders: Tys::from_vec(alloc, types)?,
        family: ty.family,
        args,
    })
}

// Adds as many types that mention nothing.
fn add_blanks(types: &mut Vec<Ty>, count: usize) -> Result<(), NoMemory>
    ensures { OnOk result (types_of types.new.items ≡ types_of types.old.items ++ replicate count (family 0 no_args)) }
{
    for _ in 0..count {
        types.push(Ty {
            binders: Tys::new(),
            family: 0,
            args: Terms::new(),
        })?;
    }
    Ok(())
}
