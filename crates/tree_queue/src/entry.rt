//! Entries of the queue.

/// A node with its depth in the tree and its priority.
#[derive(Clone, Copy)]
pub struct Entry {
    pub node: u32,
    pub depth: u32,
    pub priority: u64,
}
