//! Goals that are assigned nothing.

ghost use Rattle.std.specs.Prelude.{◌≡◌, ℕ, IfOk};
ghost use Rattle.unification.specs.Patterns.{has_number};

use basics::{Ids, NoMemory};
use indexmap::IndexSet;
use std::alloc::Global;
use std::marker::Model;

// Numbers of goals, each found in one step. A contract sees the list of them.
#[derive(Drop)]
pub struct FrozenGoals {
    numbers: IndexSet<u32>,
}

impl Model for FrozenGoals {
    ghost use Rattle.std.specs.Prelude.{List, ℕ};

    ghost Value = { List ℕ };

    ghost view = { λ a. a.numbers.keys };
}

impl FrozenGoals {
    // The goals with these numbers.
    pub fn from_ids(alloc: Global, ids: &Ids) -> Result<FrozenGoals, NoMemory>
        ensures { IfOk result (λ goals. (g : ℕ) → has_number goals g ≡ has_number ids.now g) }
    {
        let mut numbers = IndexSet::new(alloc);
        let items = ids.as_slice();
        for i in 0..items.len() {
            numbers.insert_full(items[i])?;
        }
        Ok(FrozenGoals { numbers })
    }

    // Whether a goal is one of these.
    pub fn has(&self, goal: u32) -> bool
        ensures { result ≡ has_number self.now goal }
    {
        self.numbers.contains(&goal)
    }
}
