//! Printed terms. Below stand `printed_types` with the same laws for types.
//! Proved: a printed closed term reads back at its type; two terms with one text are the same, and two types;
//! which bytes names and printed terms have.
#![tactic(auto)]

pub mod laws;
