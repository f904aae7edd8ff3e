//! Opening a type in a context: a term for each of its arguments, and a fresh goal for each argument that isn't fixed to a hypothesis.
//! `lf_terms` and the laws of opening stand below.
//! Proved: the result is the one that the definition gives.
#![tactic(auto)]

mod arguments;
pub mod entries;
pub mod fresh;
pub mod lists;
pub mod open;
pub mod places;
mod renaming;
pub mod variables;

pub use open::{Opened, open_args};
pub use variables::variable_at;
