//! Scripts: the steps of a proof by their labels, followed from the opening list of a theorem's type, and the closed term that comes of them.
//! `goal_expand` stands below with normal forms, `goal_book` with the rules, `goal_advance` with the lists after applications, and
//! `derivations` with the definition.
//! Proved: the answer is exactly `replay` of the definition: the term, or the step that no alternative has, or steps or goals that are left.
#![tactic(auto)]

mod choosing;
mod finals;
mod following;
mod naming;
mod next;
mod putting;
pub mod replayed;
pub mod replaying;
mod same;
pub mod step;

pub use replayed::Replayed;
pub use replaying::replay;
pub use step::Step;
