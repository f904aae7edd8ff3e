//! What normalisation has made of a list.

ghost use Rattle.std.specs.Prelude.{◌≡◌};
ghost use Rattle.meta_goals.specs.GoalsOf.{goals_of};
ghost use Rattle.goal_expand.specs.Progress.{goals_reached};

use build_shared::Label;
use meta_goals::{Assign, Goals};

/// A list that was reached by steps, and what they assign to goals of the list that was given.
#[derive(Drop)]
pub struct Reached {
    pub goals: Goals,
    pub build: Assign,
}

/// The labels of the steps, whether the last of them closed the goal, and what was reached, if a step was made: else the list is the one
/// that was given, of which no copy is made.
#[derive(Drop)]
pub struct Progress {
    pub labels: Vec<Label>,
    pub closed: bool,
    pub reached: Option<Reached>,
}

/// The list after the steps. It takes no memory.
pub fn list_after<'a>(goals: &'a Goals, reached: &'a Option<Reached>) -> &'a Goals
    ensures { goals_of result.now ≡ goals_reached (goals_of goals.now) reached.now }
{
    match reached {
        None => goals,
        Some(reached) => &reached.goals,
    }
}
