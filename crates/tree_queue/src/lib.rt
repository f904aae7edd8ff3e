//! The nodes of a search that are open, by priority, then depth, then address. Entries stand in a slab, and a binary
//! heap orders their keys, so a node is put and the best one is taken in as many comparisons as the heap is deep.
//! Below stand `tree_shape` and `tree_marks`. Proved: `best` answers the best entry of a relevant node and drops only entries of
//! irrelevant ones, and `put` and `take` add and take away just one.
#![tactic(auto)]

mod addresses;
pub mod entry;
mod heap;
pub mod queue;

pub use entry::Entry;
pub use queue::Queue;
