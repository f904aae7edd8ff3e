//! Answers of unification.

use basics::Path;
use meta_goals::Assign;

/// What unification ends with: an assignment with which every solution begins, the newest entry first, or the reason why an equation
/// is refused. The first number of a path is the equation's, and the others lead to the place in its atoms. After a clash, or
/// where a goal's metavariable occurs in what it would have to be, there is no solution.
#[derive(Drop)]
pub enum Unified {
    Solved(Assign),
    Clash(Path),
    Occurs(u32),
    Escapes(Path),
    Prune(Path),
    NotPattern(Path),
}
