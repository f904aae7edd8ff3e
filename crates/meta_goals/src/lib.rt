//! Goals as metavariables: assignments that are kept as entries, and what they make of terms, types and goals. `lf_terms` stands
//! below, and `head_laws` and `goal_lists` have the definitions that contracts cite.
//! Proved: what an assignment puts is found in one step; instantiation by it meets its definition and keeps shapes, and so does what it
//! leaves of lists of goals; lists are numbered by their places; whether a goal mentions a metavariable.
#![tactic(auto)]

pub mod applied;
pub mod apply_assign;
pub mod assign;
mod changes;
pub mod goals;
pub mod instantiate;
pub mod laws;
pub mod mentions;
mod places;
pub mod rename;
mod renumber;
mod type_changes;

pub use assign::{Assign, Entry};
pub use goals::Goals;
