//! A book of rules as a problem of search: the branches of a list of goals are its alternatives, each with its percentage and the clusters of the goals that it leaves.
//! `goal_expand` and `goal_clusters` stand below, and `tree_steps` with the trait.
//! Proved: expansion answers exactly these branches, so that a tree over a book stands over the unfolding of its root.
#![tactic(auto)]

mod branching;
pub mod laws;
pub mod problem;
pub mod seen;

pub use problem::RuleProblem;
pub use seen::SeenGoals;
