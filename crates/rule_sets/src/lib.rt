//! Rules and rule sets: which rules stand, which refuse to, and in which order those of some sets
//! are tried. Rules speak of the constants of an `lf_terms::Signature`, which stands below.
//! Proved: each refusal comes exactly where it is the first that holds, a book begins with the built-in
//! rules and each later rule fits the signature that it was added over, and the order is the stated one.
#![tactic(auto)]

pub mod book;
mod faults;
pub mod laws;
mod lists;
pub mod order;
pub mod rule;

pub use book::RuleBook;
pub use order::Ordered;
pub use rule::{Builder, CtorFault, Phase, Rule, RuleFault, Sets};
