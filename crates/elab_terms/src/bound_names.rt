//! The names of the binders around a place.

ghost use Rattle.std.specs.Prelude.{◌≡◌, Some, length, IfOk, OnOk, OnErr};
ghost use Rattle.basics.specs.Places.{place_of};
ghost use Rattle.elab_terms.specs.Binding.{AddsName};

use basics::{Names, NoMemory};
use std::alloc::Global;
use std::marker::Model;

/// The names of binders; the left side of an arrow binds none. A contract sees the innermost first.
#[derive(Drop)]
pub struct BoundNames {
    // The names that occurred, each once, and beside each the level of the innermost binder that has it:
    // how many binders stand outside.
    names: Names,
    levels: Vec<Option<u32>>,
    binders: Vec<Option<Named>>,
}

// A binder with a name: the place of its name, and the level that the name has outside.
#[derive(Clone, Copy)]
struct Named {
    name: u32,
    outer: Option<u32>,
}

impl Model for BoundNames {
    ghost use Rattle.elab_terms.specs.Names.{Bound};
    ghost use Rattle.elab_terms.specs.Binding.{bound_of, IsIndexed};

    ghost Value = { Bound };

    ghost view = { λ a. bound_of a.names a.binders.items };

    ghost invariant = { λ a. IsIndexed a.names a.levels.items a.binders.items };
}

impl BoundNames {
    ghost use Rattle.std.specs.Prelude.{◌≡◌, ◌++◌, ◌∷◌, [], ◌<◌, ◌-◌, ◌^◌, ℕ, List, Option, OnOk, OnErr, Some, length, option_copied};
    ghost use Rattle.elab_terms.specs.Names.{Bound, variable_of};

    /// None. It takes no memory.
    pub fn new(alloc: Global) -> BoundNames
        ensures { result ≡ [] }
    {
        BoundNames {
            names: Names::new(alloc),
            levels: Vec::new(alloc),
            binders: Vec::new(alloc),
        }
    }

    /// How many binders there are.
    pub fn len(&self) -> usize
        ensures { result ≡ length self.now }
    {
        self.binders.len()
    }

    /// The innermost variable that has the name, by how many binders stand between.
    pub fn find(&self, name: &[u8]) -> Option<u32>
        ensures { result ≡ variable_of self.now name.now }
    {
        let place = self.names.find(name)?;
        let level = self.levels[place as usize]?;
        Some(self.binders.len() as u32 - 1 - level)
    }

    /// One binder more, the innermost. A refusal leaves the binders as they were.
    pub fn push(&mut self, alloc: Global, name: Option<&[u8]>) -> Result<(), NoMemory>
        ensures ok { OnOk result (self.new ≡ option_copied name.entry ∷ self.old) }
        ensures err { OnErr result (self.new ≡ self.old) }
    {
        if self.binders.len() >= u32::MAX as usize {
            return Err(NoMemory);
        }
        match name {
            None => {
                self.binders.push(None)?;
                Ok(())
            }
            Some(name) => self.push_named(alloc, name),
        }
    }

    // One binder more, with a name.
    fn push_named(&mut self, alloc: Global, name: &[u8]) -> Result<(), NoMemory>
        requires { length self.old < 2 ^ 32 - 1 }
        ensures ok { OnOk result (self.new ≡ Some name.now ∷ self.old) }
        ensures err { OnErr result (self.new ≡ self.old) }
    {
        let place = place_in(&mut self.names, &mut self.levels, alloc, name)?;
        let outer = self.levels[place as usize];
        let level = self.binders.len() as u32;
        self.binders.push(Some(Named { name: place, outer }))?;
        self.levels[place as usize] = Some(level);
        Ok(())
    }

    /// Takes the innermost binder away.
    pub fn pop(&mut self)
        ensures { (name : Option (List ℕ)) → (outside : Bound) → self.old ≡ name ∷ outside → self.new ≡ outside }
    {
        let Some(binder) = self.binders.pop() else {
            return;
        };
        let Some(named) = binder else {
            return;
        };
        self.levels[named.name as usize] = named.outer;
    }

    /// Takes the innermost binders away, up to so many.
    pub fn truncate(&mut self, count: usize)
        ensures { (inside : Bound) → (outside : Bound) → self.old ≡ inside ++ outside → length outside ≡ count → self.new ≡ outside }
    {
        for _ in count..self.len() {
            self.pop();
        }
    }
}

// The place of a name among those that occurred. A new one goes last, with no level.
fn place_in(
    names: &mut Names,
    levels: &mut Vec<Option<u32>>,
    alloc: Global,
    name: &[u8],
) -> Result<u32, NoMemory>
    requires { length levels.old.items ≡ length names.old }
    ensures place { IfOk result (λ place. place_of names.new name.now ≡ Some place) }
    ensures adds { OnOk result (AddsName name.now names.old levels.old.items names.new levels.new.items) }
    ensures names { OnErr result (names.new ≡ names.old) }
    ensures levels { OnErr result (levels.new.items ≡ levels.old.items) }
{
    if let Some(place) = names.find(name) {
        return Ok(place);
    }
    let place = levels.len();
    if place >= u32::MAX as usize {
        return Err(NoMemory);
    }
    levels.push(None)?;
    match names.add(alloc, name) {
        Ok(()) => Ok(place as u32),
        Err(refusal) => {
            levels.pop();
            Err(refusal)
        }
    }
}
