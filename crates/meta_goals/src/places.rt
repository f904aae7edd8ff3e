//! The places of numbers in a list.

ghost use Rattle.std.specs.Prelude.{◌≡◌, ◌++◌, [], ◌∷◌, false, nat_eq, length, OnOk};
ghost use Rattle.std.specs.List.{list_any};
ghost use Rattle.head_laws.specs.Renumbering.{place_of_number};

use basics::NoMemory;
use indexmap::IndexSet;
use std::alloc::Global;
use std::marker::Model;

// Numbers that differ, whose places are found by a look-up. A contract sees the list of them.
#[derive(Drop)]
pub(crate) struct Places {
    numbers: IndexSet<u32>,
}

impl Model for Places {
    ghost use Rattle.std.specs.Prelude.{List, ℕ, length, ◌<◌, ◌^◌};

    ghost Value = { List ℕ };

    ghost view = { λ a. a.numbers.keys };

    ghost invariant = { λ a. length a.numbers.keys < 2 ^ 32 };
}

impl Places {
    // No numbers. It takes no memory.
    pub(crate) fn new(alloc: Global) -> Places
        ensures { result ≡ [] }
    {
        Places {
            numbers: IndexSet::new(alloc),
        }
    }

    // How many numbers there are.
    pub(crate) fn len(&self) -> u32
        ensures { result ≡ length self.now }
    {
        self.numbers.len() as u32
    }

    // The place of a number, from 0, and how many there are where it is none of them.
    pub(crate) fn find(&self, number: u32) -> u32
        ensures { result ≡ place_of_number self.now number }
    {
        match self.numbers.get_index_of(&number) {
            None => self.numbers.len() as u32,
            Some(place) => place as u32,
        }
    }

    // Adds a number that isn't there.
    pub(crate) fn add(&mut self, number: u32) -> Result<(), NoMemory>
        requires { list_any (nat_eq number) self.old ≡ false }
        ensures { OnOk result (self.new ≡ self.old ++ number ∷ []) }
    {
        if self.numbers.len() >= u32::MAX as usize {
            return Err(NoMemory);
        }
        self.numbers.insert_full(number)?;
        Ok(())
    }
}
