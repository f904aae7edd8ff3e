//! Lists of names that are found by a look-up and not by a scan.

ghost use Rattle.std.specs.Prelude.{◌≡◌, ◌++◌, ℕ, List, [], ◌∷◌, OnOk, OnErr, length};
ghost use Rattle.basics.specs.Places.{place_of, IsNew};

use crate::no_memory::NoMemory;
use indexmap::IndexSet;
use std::alloc::Global;
use std::marker::Model;

/// Names in the order in which they were added, each once. A contract sees the list of them, each as
/// its bytes.
#[derive(Drop)]
pub struct Names {
    names: IndexSet<Vec<u8>>,
}

impl Model for Names {
    ghost use Rattle.std.specs.Prelude.{List, ℕ, map, length, ◌<◌, ◌^◌};

    ghost Value = { List (List ℕ) };

    ghost view = { λ a. map (λ name. name.items) a.names.keys };

    ghost invariant = { λ a. length a.names.keys < 2 ^ 32 };
}

impl Names {
    /// No names. It takes no memory.
    pub fn new(alloc: Global) -> Names
        ensures { result ≡ [] }
    {
        Names {
            names: IndexSet::new(alloc),
        }
    }

    /// How many names there are.
    pub fn len(&self) -> usize
        ensures { result ≡ length self.now }
    {
        self.names.len()
    }

    /// The place of a name, from 0 in the order in which they were added.
    pub fn find(&self, name: &[u8]) -> Option<u32>
        ensures { result ≡ place_of self.now name.now }
    {
        match self.names.get_index_of(name) {
            None => None,
            Some(place) => Some(place as u32),
        }
    }

    /// Adds a name that isn't there. A refusal leaves the names as they were.
    pub fn add(&mut self, alloc: Global, name: &[u8]) -> Result<(), NoMemory>
        requires { IsNew self.old name.now }
        ensures ok { OnOk result (self.new ≡ self.old ++ name.now ∷ []) }
        ensures err { OnErr result (self.new ≡ self.old) }
    {
        if self.names.len() >= u32::MAX as usize {
            return Err(NoMemory);
        }
        let name = Vec::from_slice(alloc, name)?;
        self.names.insert_full(name)?;
        Ok(())
    }

    /// Takes the last name away.
    pub fn drop_last(&mut self)
        ensures { (names : List (List ℕ)) → (name : List ℕ) → self.old ≡ names ++ name ∷ [] → self.new ≡ names }
    {
        self.names.pop();
    }
}
