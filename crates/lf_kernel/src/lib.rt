//! The kernel: typing of terms and types over a signature, and signatures that take only well-formed
//! entries. Below stands `lf_terms` with terms, substitution and signatures.
//! Proved: a check answers that a term has its type, or the path of the first failure, and nothing else;
//! an entry is added where it is well formed and its name new, and refused for the stated cause.
#![tactic(auto)]

pub mod adding;
mod answer;
pub mod head_type;
pub mod local_context;
mod path;
mod place;
mod sig_fault;
mod stripping;
pub mod typing;
mod walk;
mod walk_type;

pub use answer::Check;
pub use sig_fault::SigFault;
