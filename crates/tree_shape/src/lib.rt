//! The shape of a search tree in vectors: nodes by number, and for each grown node its alternatives with their children. On definitions of
//! `tree_runs` it stands, and on `basics`. Proved: what is shown is always a shape, growing is that of the definitions, and each question is
//! answered by it in one step.
#![tactic(auto)]

mod grow;
mod shape;

pub use shape::Shape;
