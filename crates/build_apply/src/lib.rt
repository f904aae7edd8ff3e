//! What rules that work backwards offer for the first goal of a list, and the applications that come of it: a constant, the constructors
//! of a list, and hypotheses, each as the head that closes the goal.
//! `build_shared` and `rule_methods` stand below. Proved: the applications are exactly those of the definition, in order.
#![tactic(auto)]

pub mod applying;
mod backward;
mod constants;
mod hypotheses;

pub use applying::applications;
