//! Attempts of candidates.

use crate::candidate::Candidate;
use lf_terms::{Goal, Signature};
use meta_goals::Goals;
use std::alloc::Global;

/// A candidate for a goal of a list, with fresh numbers from `first` on, over a signature, and where memory comes from.
#[derive(Clone, Copy)]
pub struct Attempt<'a> {
    pub alloc: Global,
    pub sig: &'a Signature,
    pub goals: &'a Goals,
    pub goal: &'a Goal,
    pub first: u32,
    pub candidate: &'a Candidate,
}
