//! The marks of a search tree's nodes: proved, stuck, relevant. On the definitions of `tree_runs` it stands, on `tree_shape` and on `basics`.
//! Proved: after each growth is settled the marks are those of the definition, and each question is answered by them in one step. What is
//! known below nodes stands with the marks, so that a step up never reads all of a node's alternatives again, and each node is marked
//! irrelevant once.
#![tactic(auto)]

mod climb;
mod known;
mod marks;
mod relevance;
mod scans;
mod spread;

pub use marks::Marks;
