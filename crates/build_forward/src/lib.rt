//! The builders `forward` and `destruct`: a constant whose premises are hypotheses, so that its conclusion is one more.
//! `build_shared` stands below, and so does `applications` with the definition.
//! Proved: the answer is the list of applications that the definition gives, in order.
#![tactic(auto)]

mod clashes;
mod equations;
mod onward;
mod premises;
mod refusal;
pub mod rule;
mod tuples;

pub use rule::applications;
