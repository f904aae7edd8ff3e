//! Steps of scripts.

use build_shared::Label;
use goal_expand::Last;

/// A step of a script: the labels of normalisation, and the last step.
#[derive(Drop)]
pub struct Step {
    pub norm: Vec<Label>,
    pub last: Last,
}
