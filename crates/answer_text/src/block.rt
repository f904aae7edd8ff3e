//! Blocks.

use basics::Name;
use lf_terms::Term;
use proof_replay::Step;
use tree_steps::Journal;

/// What is answered for a theorem: it is proved, by a closed term and a script; no choice of rules closes it; or the budget was spent first.
#[derive(Drop)]
pub enum Verdict {
    Proved(Term, Vec<Step>),
    Stuck,
    Spent,
}

/// The name of a theorem, what is answered for it, and the events of the search where they are shown.
#[derive(Drop)]
pub struct Block {
    pub name: Name,
    pub verdict: Verdict,
    pub events: Option<Journal>,
}
