//! What comes of a script.

use lf_terms::Term;

/// What comes of a script: a closed term; or the number of a step that no alternative has, from 0; or that of a step before which no goal
/// was left; or how many steps there were, after which goals were left.
#[derive(Drop)]
pub enum Replayed {
    Closed(Term),
    NoSuchStep(u32),
    StepsLeft(u32),
    GoalsLeft(u32),
}
