//! Alternatives.

use build_shared::Label;
use meta_goals::{Assign, Goals};

/// How the goal that is left after normalisation was treated: it was closed; a safe rule was committed; an unsafe rule was chosen; a safe
/// rule was postponed to the choices.
#[derive(Drop)]
pub enum Last {
    Done,
    Safe(Label),
    Unsafe(Label),
    Late(Label),
}

/// The labels of normalisation, the last step, the percentage, the list after all of them, and what they assign to goals of the list that
/// was given.
#[derive(Drop)]
pub struct Alternative {
    pub norm: Vec<Label>,
    pub last: Last,
    pub percent: u8,
    pub goals: Goals,
    pub build: Assign,
}
