//! Labels.

use basics::Ids;

/// What an application is called by: the number of its rule, the place of its constant in a list of constructors (0 where the rule has
/// none), and the places of its hypotheses in the goal's context, from 0.
#[derive(Drop)]
pub struct Label {
    pub rule: u32,
    pub choice: u32,
    pub hyps: Ids,
}
