//! Lists of goals.

use lf_terms::GoalList;

/// A list of goals: proof goals and then witness goals.
#[derive(Drop)]
pub struct Goals {
    pub proofs: GoalList,
    pub witnesses: GoalList,
}
