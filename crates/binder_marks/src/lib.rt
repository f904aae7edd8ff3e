//! Which binders of a type the rest of it mentions. Below stand `lf_terms` with types, and `head_laws` with the
//! truth values of occurrence.
//! Proved: each mark says whether the binder's variable occurs in the rest.
#![tactic(auto)]

pub mod laws;
mod marking;

pub use marking::{binder_marks, mentioned_binders};
