//! The trees of printed types. Below stand `printed_tokens` with their tokens and `file_syntax` with the
//! grammar.
//! Proved: the grammar reads a printed type as a tree of it.
#![tactic(auto)]

pub mod laws;
