//! The builder `cases`: a constant whose major argument is a hypothesis without binders.
//! `build_shared` stands below, and so does `applications` with the definition.
//! Proved: the answer is the list of applications that the definition gives, in order.
#![tactic(auto)]

mod dropping;
mod major;
pub mod rule;
mod split;
mod trying;

pub use rule::applications;
