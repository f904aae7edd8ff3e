//! From a tree to its script and its term.
//! `proof_replay` stands below with scripts, `rule_problem` with the problem of a book, `chosen_scripts` with the definition of the chosen script, and `extraction_laws` with
//! what says that it can be read from a tree.
//! Proved: the script is the chosen one, and its replay is the term. Each goal of the one list has an entry with its node, and no node of the tree is looked for by its address.
#![tactic(auto)]

mod carried;
pub mod extracting;
mod following;
mod moved;

pub use extracting::extract;
