//! Lists of pairs of numbers.

ghost use Rattle.std.specs.Prelude.{◌≡◌, ◌++◌, [], ◌∷◌, OnOk, OnErr, length};

use crate::no_memory::NoMemory;
use std::alloc::Global;
use std::marker::Model;

/// Pairs of numbers, such as an old number and a new one, in order. A contract sees the list of them.
#[derive(Drop)]
pub struct Pairs {
    items: Vec<(u32, u32)>,
}

impl Model for Pairs {
    ghost use Rattle.std.specs.Prelude.{List, ℕ};

    ghost Value = { List (ℕ × ℕ) };

    ghost view = { λ a. a.items.items };
}

impl Pairs {
    /// No pairs. It takes no memory.
    pub fn new(alloc: Global) -> Pairs
        ensures { result ≡ [] }
    {
        Pairs {
            items: Vec::new(alloc),
        }
    }

    /// How many pairs there are.
    pub fn len(&self) -> usize
        ensures { result ≡ length self.now }
    {
        self.items.len()
    }

    /// The pairs as a slice.
    pub fn as_slice(&self) -> &[(u32, u32)]
        ensures { result.now ≡ self.now }
    {
        self.items.as_slice()
    }

    /// Adds a pair at the end. A refusal leaves the list as it was.
    pub fn push(&mut self, pair: (u32, u32)) -> Result<(), NoMemory>
        ensures ok { OnOk result (self.new ≡ self.old ++ pair ∷ []) }
        ensures err { OnErr result (self.new ≡ self.old) }
    {
        self.items.push(pair)?;
        Ok(())
    }
}
