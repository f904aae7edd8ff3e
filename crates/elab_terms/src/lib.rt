//! From the trees of a file to terms, types and kinds: names are resolved, and terms are read against
//! types and made eta-long. Below stand `file_trees` with the trees and `lf_kernel` with the types of
//! heads.
//! Proved: what is read is what it is defined to be, or refused for the first fault, at its place; what
//! is read is well formed.
#![tactic(auto)]

mod applied;
mod binding;
mod bound_names;
pub mod closed;
pub mod elab_fault;
mod ending;
pub mod file_text;
mod head;
pub mod laws;
pub mod names;
mod read_kind;
mod read_type;
mod reader;
mod results;
mod terms;
mod types;

pub use elab_fault::ElabFault;
