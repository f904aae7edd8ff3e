//! Patterns: which terms read as variables, which arguments are a pattern, and what the tests of unification say of a term. Below stand `lf_terms`, and the
//! definitions in `unification`. Proved: each call answers what its definition says.
#![tactic(auto)]

pub mod covering;
pub mod occurrence;
pub mod pattern;
pub mod placing;
pub mod reading;

pub use occurrence::{occurs, occurs_among, occurs_plainly};
pub use pattern::{Pattern, pattern_of};
pub use reading::{are_own, reads, variables_of};
