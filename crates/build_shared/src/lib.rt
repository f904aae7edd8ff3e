//! What the builders share: candidates that rules offer for a goal, and the applications that come of them.
//! `meta_goals`, `meta_openings` and `meta_unify` stand below, and so does `applications` with the definition.
//! Proved: what comes of a candidate is exactly what the definition says.
#![tactic(auto)]

mod adding;
mod adding_tests;
mod answering;
pub mod app;
pub mod arguments;
mod attempt;
pub mod below;
pub mod candidate;
mod completing;
pub mod constants;
pub mod counting;
mod dropping;
pub mod first;
pub mod hypotheses;
pub mod kept;
pub mod label;
pub mod numbers;
pub mod premises;
mod remaining;
pub mod rule_use;
mod testing;
pub mod unfixed;
mod unifying;
pub mod variables;
mod whole;

pub use app::App;
pub use candidate::{Candidate, Outcome};
pub use hypotheses::Hypothesis;
pub use label::Label;
pub use rule_use::RuleUse;
