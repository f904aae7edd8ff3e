//! The list of goals after an application, and one assignment after another. `build_shared` stands below with the applications, and so does
//! `alternatives` with the definitions.
//! Proved: the list is exactly `list_after`, and the assignment `then_assigned`, with entries that have the shapes of their goals' contexts.
#![tactic(auto)]

pub mod advance;
pub mod copying;
pub mod follow;
