//! The name of a tree that several workers share.

ghost use Rattle.std.specs.Prelude.{ℕ, Option, None};

use std::marker::Brand;

/// Of which problem, root, budget and number of workers a shared tree is. What stands under a lock is known by its type alone, so this is a
/// parameter of that type. It has no value when the program runs.
pub trait TreeName<P, N> {
    ghost problem: { Option P };

    ghost root: { Option N };

    ghost budget: { ℕ };

    ghost workers: { ℕ };
}

impl<P, N> TreeName<P, N> for Brand {
    ghost problem = { None };

    ghost root = { None };

    ghost budget = { 0 };

    ghost workers = { 0 };
}
