//! Goals by their numbers.

ghost use Rattle.std.specs.Prelude.{◌≡◌, ◌++◌, [], ◌∷◌, IsTrue, map, option_map};
ghost use Rattle.lf_terms.specs.GoalNumbers.{NumbersRise, goal_numbered};
ghost use Rattle.lf_terms.specs.Targets.{goal_of};

use crate::goal::Goal;

// Whether a goal has a greater number than the last of a list.
pub fn is_past(goals: &[Goal], goal: &Goal) -> bool
    ensures { IsTrue result → NumbersRise (map goal_of goals.now) → NumbersRise (map goal_of goals.now ++ goal_of goal.now ∷ []) }
{
    let count = goals.len();
    if count == 0 {
        return true;
    }
    goals[count - 1].id < goal.id
}

// Whether each number is less than the next.
pub fn numbers_rise(goals: &[Goal]) -> bool
    ensures { IsTrue result → NumbersRise (map goal_of goals.now) }
{
    for i in 0..goals.len() {
        if !is_past(&goals[..i], &goals[i]) {
            return false;
        }
    }
    true
}

// The first goal of a number, by a walk over the list.
pub fn find_anywhere(goals: &[Goal], id: u32) -> Option<&Goal>
    ensures { option_map (λ g. goal_of g.now) result ≡ goal_numbered (map goal_of goals.now) id }
{
    goals.iter().find(|goal| goal.id == id)
}

// The same where the numbers rise: at the place of the number, where it stands if the goals are numbered by
// their places, and else by halving.
pub fn find_rising(goals: &[Goal], id: u32) -> Option<&Goal>
    requires { NumbersRise (map goal_of goals.now) }
    ensures { option_map (λ g. goal_of g.now) result ≡ goal_numbered (map goal_of goals.now) id }
{
    let own = id as usize;
    if own < goals.len() {
        let goal = &goals[own];
        if goal.id == id {
            return Some(goal);
        }
    }
    let place = goals.partition_point(|goal| goal.id < id);
    if place < goals.len() {
        let goal = &goals[place];
        if goal.id == id {
            return Some(goal);
        }
    }
    None
}
