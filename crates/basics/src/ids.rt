//! Lists of numbers.

ghost use Rattle.std.specs.Prelude.{◌≡◌, ◌++◌, [], ◌∷◌, OnOk, OnErr, length};

use crate::no_memory::NoMemory;
use std::alloc::Global;
use std::marker::Model;

/// Numbers of families, constants, rules, goals or places, in order. A contract sees the list of them.
#[derive(Drop)]
pub struct Ids {
    items: Vec<u32>,
}

/// The way from a root to a part: the number of the child at each step, counted from 0. The children of
/// a type are its binders and then its arguments, those of a kind its binders, those of a spine its
/// arguments, and the body of an abstraction is child 0.
pub type Path = Ids;

impl Model for Ids {
    ghost use Rattle.std.specs.Prelude.{List, ℕ};

    ghost Value = { List ℕ };

    ghost view = { λ a. a.items.items };
}

impl Ids {
    /// No numbers. It takes no memory.
    pub fn new(alloc: Global) -> Ids
        ensures { result ≡ [] }
    {
        Ids {
            items: Vec::new(alloc),
        }
    }

    /// The numbers of a vector. It takes no memory.
    pub fn from_vec(items: Vec<u32>) -> Ids
        ensures { result ≡ items.items }
    {
        Ids { items }
    }

    /// The vector of the numbers. It takes no memory.
    pub fn into_vec(self) -> Vec<u32>
        ensures { result.items ≡ self }
    {
        self.items
    }

    /// How many numbers there are.
    pub fn len(&self) -> usize
        ensures { result ≡ length self.now }
    {
        self.items.len()
    }

    /// The numbers as a slice.
    pub fn as_slice(&self) -> &[u32]
        ensures { result.now ≡ self.now }
    {
        self.items.as_slice()
    }

    /// Adds a number at the end. A refusal leaves the list as it was.
    pub fn push(&mut self, id: u32) -> Result<(), NoMemory>
        ensures ok { OnOk result (self.new ≡ self.old ++ id ∷ []) }
        ensures err { OnErr result (self.new ≡ self.old) }
    {
        self.items.push(id)?;
        Ok(())
    }
}
