//! A search tree over any problem, in steps: nodes are claimed, committed or given back, and each step is an event of the journal. Below stand
//! `tree_shape`, `tree_marks` and `tree_queue`, with the definitions in `tree_runs`. Proved: the tree is the replay of its own journal, which
//! is a run; a claim answers the best node, or why there is none; and each call adds the one event that it says, or none.
#![tactic(auto)]

pub mod answers;
pub mod branches;
mod children;
pub mod journal;
pub mod problem;
pub mod tree;

pub use answers::{Claim, Refused, Root};
pub use branches::{Branch, Branches};
pub use journal::{Event, Journal};
pub use problem::Problem;
pub use tree::Tree;
