//! Goals that are dealt out by the roots of their places.

ghost use Rattle.std.specs.Prelude.{◌≡◌, ◌+◌, ◌≤◌, ◌<◌, [], All, IfOk, length, drop};
ghost use Rattle.goal_clusters.specs.Dealing.{dealt};

use basics::NoMemory;
use lf_terms::GoalList;
use std::alloc::Global;

// For each place the goals of a list, in order, of which it is the root. The roots of the list's places stand
// from `first` on.
pub(crate) fn deal(
    alloc: Global,
    roots: &[usize],
    first: usize,
    goals: &GoalList,
) -> Result<Vec<GoalList>, NoMemory>
    requires within { All (λ r. r < length roots.now) roots.now }
    requires as_long { first + length goals.now ≤ length roots.now }
    ensures { IfOk result (λ parts. parts.items ≡ dealt (length roots.now) (drop first roots.now) goals.now) }
{
    let mut parts = empty_lists(alloc, roots.len())?;
    let items = goals.as_slice();
    for i in 0..items.len() {
        let part = &mut parts[roots[first + i]];
        part.push(items[i].copy()?)?;
    }
    Ok(parts)
}

// So many empty lists.
fn empty_lists(alloc: Global, count: usize) -> Result<Vec<GoalList>, NoMemory>
    ensures { IfOk result (λ lists. lists.items ≡ dealt count [] []) }
{
    let mut lists = Vec::with_capacity(alloc, count)?;
    for _ in 0..count {
        lists.push(GoalList::new(alloc))?;
    }
    Ok(lists)
}
