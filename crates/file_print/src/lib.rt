//! Terms and types as text. Below stand `lf_terms` with terms, types and signatures.
//! Proved: what is appended is exactly the text of the term or type.
#![tactic(auto)]

mod numerals;
pub mod printing;

pub use printing::{print_term, print_type};
