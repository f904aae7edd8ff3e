//! What a search asks of the rules of a book: which of them fit the first goal of a list, the first application that normalises the list
//! or may be committed, and all applications that may be chosen.
//! `rule_index` and the builders stand below, and so does `alternatives` with the definitions.
//! Proved: each answer is the one of the definitions, over all active rules, though only those that fit are tried.
#![tactic(auto)]

pub mod book;
pub mod choices;
mod finding;
mod first;
pub mod openings;
mod query;
mod ranking;
mod wanted;

pub use book::GoalBook;
pub use choices::Choice;
pub use openings::opening;
