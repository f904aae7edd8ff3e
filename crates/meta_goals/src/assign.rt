//! Assignments that are kept as entries.

ghost use Rattle.std.specs.Prelude.{◌≡◌, ◌++◌, [], ◌∷◌, None, Some, OnOk, OnErr, length, option_map, option_copied, slice_get};
ghost use Rattle.meta_goals.specs.Bindings.{binding_for, bound_again};
ghost use Rattle.meta_goals.specs.Entries.{binding_of};

use basics::NoMemory;
use indexmap::IndexMap;
use lf_terms::{Shapes, Term};
use std::alloc::Global;
use std::marker::Model;

/// What is put for a goal: the shapes of the entries of its context, the oldest first, and a body in that
/// context. So no list of goals is needed to read it.
#[derive(Drop)]
pub struct Entry {
    pub shapes: Shapes,
    pub body: Term,
}

/// What is put for each goal that is assigned, at most once, in the order in which it was added. A contract
/// sees the list of bindings.
#[derive(Drop)]
pub struct Assign {
    entries: IndexMap<u32, Entry>,
}

impl Model for Assign {
    ghost use Rattle.std.specs.Prelude.{List, map};
    ghost use Rattle.meta_goals.specs.Bindings.{LfBinding, bindings_code};

    ghost Value = { List LfBinding };

    ghost coded = { bindings_code };

    ghost use Rattle.meta_goals.specs.Entries.{binding_of};

    ghost view = { λ a. map binding_of a.entries.entries };
}

impl Assign {
    /// Nothing is assigned. It takes no memory.
    pub fn new(alloc: Global) -> Assign
        ensures { result ≡ [] }
    {
        Assign {
            entries: IndexMap::new(alloc),
        }
    }

    /// How many goals are assigned.
    pub fn len(&self) -> usize
        ensures { result ≡ length self.now }
    {
        self.entries.len()
    }

    /// What is put for a goal, found in one step, whatever their number.
    pub fn find(&self, id: u32) -> Option<&Entry>
        ensures { option_map (λ entry. binding_of (id, entry)) (option_copied result) ≡ binding_for self.now id }
    {
        self.entries.get(&id)
    }

    /// The goal that was assigned at a place, from 0 in this order, and what is put for it.
    pub fn at(&self, place: usize) -> Option<(u32, &Entry)>
        ensures { option_map (λ e. binding_of (e.0, e.1.now)) result ≡ slice_get self.now place }
    {
        match self.entries.get_index(place) {
            None => None,
            Some((id, entry)) => Some((*id, entry)),
        }
    }

    /// Assigns a goal that is not assigned. A refusal leaves the assignment as it was.
    pub fn push(&mut self, id: u32, entry: Entry) -> Result<(), NoMemory>
        requires { binding_for self.old id ≡ None }
        ensures ok { OnOk result (self.new ≡ self.old ++ binding_of (id, entry) ∷ []) }
        ensures err { OnErr result (self.new ≡ self.old) }
    {
        self.entries.insert(id, entry)?;
        Ok(())
    }

    /// Assigns a goal, in the place of what was put for it before, if there is something. A refusal leaves the assignment
    /// as it was.
    pub fn put(&mut self, id: u32, entry: Entry) -> Result<(), NoMemory>
        ensures ok { OnOk result (self.new ≡ bound_again self.old (binding_of (id, entry))) }
        ensures err { OnErr result (self.new ≡ self.old) }
    {
        self.entries.insert(id, entry)?;
        Ok(())
    }
}
