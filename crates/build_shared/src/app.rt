//! Applications.

use crate::label::Label;
use lf_terms::GoalList;
use meta_goals::Assign;

/// What a rule makes of the first goal of a list: its label, what it assigns to goals of the list, with its new goals as metavariables, the
/// new proof and witness goals, and whether it assigns any goal of the list but the first.
#[derive(Drop)]
pub struct App {
    pub label: Label,
    pub assign: Assign,
    pub proofs: GoalList,
    pub witnesses: GoalList,
    pub assigns_others: bool,
}
