//! The search for a proof of one theorem, in the caller alone or by several workers on one tree.
//! `tree_shared` stands below with the searches over any problem, `rule_problem` with the problem of a book, `proof_extract` with scripts and terms of trees, and
//! `right_answers` with the definitions.
//! Proved: the block is what the still run answers, or with workers what a settled run of their seats does, and it is right: a proved theorem's term has its type and comes of
//! the script, a stuck one is not derivable, and the budget is spent where that is said.
#![tactic(auto)]

mod answer;
pub mod shared;
pub mod still;

pub use shared::prove_theorem;
pub use still::prove_theorem_still;
