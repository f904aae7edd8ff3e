//! The rules that may apply to a target, found by their keys. Rules are those of a `rule_sets::RuleBook`, and
//! keys come from the conclusions of constants in an `lf_terms::Signature`.
//! Proved: a look-up answers exactly the rules whose keys are compatible with the target, in their order.
//! Only measured: that it reads no others.
#![tactic(auto)]

pub mod index;
mod key;
mod node;
mod tree;

pub use index::Index;
