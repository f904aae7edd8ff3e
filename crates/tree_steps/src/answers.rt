//! What the calls of a tree answer.

use crate::branches::Branches;

/// What a claim answers: a node's number and its content, that the root is decided, that the budget is used up by committed nodes and
/// this many held ones, or that no node is open and relevant, with the number of held ones.
#[derive(Drop)]
pub enum Claim<N> {
    Take(u32, N),
    Decided,
    Spent(u32),
    Idle(u32),
}

/// A commit was refused when out of memory; the branches come back.
#[derive(Drop)]
pub enum Refused<N> {
    NoMemory(Branches<N>),
}

/// What is known of the root.
#[derive(Clone, Copy, Debug, PartialEq, Eq)]
pub enum Root {
    Proved,
    Stuck,
    Undecided,
}
