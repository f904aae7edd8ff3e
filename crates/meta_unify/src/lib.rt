//! Unification of patterns: two atoms are made one syntax by an assignment of metavariables, or there is a reason why not.
//! `unification` has the definition, a transition system. Proved: the answer is the one with which its transitions end.
#![tactic(auto)]

pub mod equations;
mod frozen;
mod late;
mod mentions;
pub mod problem;
mod shapes;
mod solving;
mod stop;
pub mod unified;
mod walk;

pub use equations::{Equation, Equations};
pub use problem::unify;
pub use unified::Unified;
