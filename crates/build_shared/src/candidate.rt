//! Candidates.

use crate::label::Label;
use basics::Ids;
use lf_terms::Head;
use meta_openings::Opened;
use meta_unify::Equations;

/// How a goal becomes a head applied to terms: it is that, or it is what a new goal is once the head applied to the terms is one more
/// hypothesis, with these places of the context kept.
#[derive(Drop)]
pub enum Outcome {
    Closes,
    Adds(Ids),
}

/// What a rule offers for a goal: the head and what its type is opened to, for each fresh goal whether it is a proof goal, the equations
/// that are to be unified, and how the head is used.
#[derive(Drop)]
pub struct Candidate {
    pub label: Label,
    pub head: Head,
    pub opened: Opened,
    pub are_proofs: Vec<bool>,
    pub equations: Equations,
    pub outcome: Outcome,
}
