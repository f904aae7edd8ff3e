//! Where a worker passes between its claim and its commit.

/// What a worker calls between its claim and its commit, while no lock is held. It has no part in any answer: tests watch the workers by it.
pub trait Gate {
    /// The worker of a seat claimed a node, before which so many claims stood in the journal.
    fn between(&self, seat: u32, turn: u32);
}
