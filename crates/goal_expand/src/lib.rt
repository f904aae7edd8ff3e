//! What the search does with a list of goals: its normal form, and its alternatives.
//! `goal_book` stands below with the rules, `goal_advance` with the lists after applications, and `alternatives` with the definitions. That
//! normal forms are reached is a law of `taken_alternatives`.
//! Proved: both are exactly those of the definitions, in order, and what they assign has the shapes of the goals' contexts.
#![tactic(auto)]

pub mod alternative;
pub mod expanding;
mod given;
mod labels;
pub mod normal;
mod normalising;
mod one_more;
mod progress;
mod taking;

pub use alternative::{Alternative, Last};
pub use expanding::alternatives;
pub use normal::{Normed, normalise};
