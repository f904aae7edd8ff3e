//! The tokens of printed types. Below stand `file_print` with the texts and `lex_text` with tokens.
//! Proved: the tokens of a printed type are these.
#![tactic(auto)]

pub mod laws;
