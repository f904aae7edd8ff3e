//! From the trees of a file to a program: its declarations are taken in order, each over those before
//! it. Below stand `elab_terms`, which reads terms, types and kinds, and `rule_sets`.
#![tactic(auto)]

mod constructors;
pub mod elaborating;
pub mod laws;
mod number;
pub mod program;
mod rule_parts;
mod rules;
mod symbols;
pub mod theorem;
mod theorems;

pub use elab_terms::ElabFault;
pub use elaborating::elaborate;
pub use program::Program;
pub use theorem::{Theorem, TheoremList};
