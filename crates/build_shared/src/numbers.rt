//! Fresh numbers.

ghost use Rattle.std.specs.Prelude.{◌≡◌, IfOk, max};
ghost use Rattle.lf_definitions.specs.GoalLists.{ids, above, next_id};
ghost use Rattle.meta_goals.specs.GoalsOf.{goals_of};

use basics::NoMemory;
use lf_terms::GoalList;
use meta_goals::Goals;

/// The first number above those of all goals. A number past its type is out of memory.
pub fn next_number(goals: &Goals) -> Result<u32, NoMemory>
    ensures { IfOk result (λ next. next ≡ next_id (goals_of goals.now)) }
{
    let next = next_above(0, &goals.proofs)?;
    next_above(next, &goals.witnesses)
}

// The first number from `least` on that is above those of the goals.
fn next_above(least: u32, goals: &GoalList) -> Result<u32, NoMemory>
    ensures { IfOk result (λ next. next ≡ max least (above (ids goals.now))) }
{
    let items = goals.as_slice();
    let mut next = least;
    for i in 0..items.len() {
        let id = items[i].id;
        if id >= next {
            if id == u32::MAX {
                return Err(NoMemory);
            }
            next = id + 1;
        }
    }
    Ok(next)
}
