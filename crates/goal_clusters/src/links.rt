//! Places that are joined: each is linked to an earlier one that it is joined with, or to itself. Whoever follows
//! the links comes to the root, the first place of all that are joined with it.

ghost use Rattle.std.specs.Prelude.{◌≡◌, ℕ, ◌<◌, IfOk, length, map};
ghost use Rattle.applications.specs.Candidates.{counting_from};
ghost use Rattle.goal_clusters.specs.Linking.{joined_at, LeadsBack, LeadsTo, Relinks};

use basics::NoMemory;
use std::alloc::Global;

// So many places, each linked to itself.
pub(crate) fn own_links(alloc: Global, count: usize) -> Result<Vec<usize>, NoMemory>
    ensures { IfOk result (λ links. links.items ≡ counting_from 0 count) }
{
    let mut links = Vec::with_capacity(alloc, count)?;
    for place in 0..count {
        links.push(place)?;
    }
    Ok(links)
}

// The root of a place. Each second place on the way is linked to the one after the next, so that later ways
// are shorter.
fn find(links: &mut Vec<usize>, place: usize) -> usize
    requires leads_back { LeadsBack links.old.items }
    requires within { place < length links.old.items }
    ensures leads_back { LeadsBack links.new.items }
    ensures as_long { length links.new.items ≡ length links.old.items }
    ensures within { result < length links.old.items }
    ensures leads_to { (root : ℕ → ℕ) → LeadsTo links.old.items root → LeadsTo links.new.items root }
    ensures is_root { (root : ℕ → ℕ) → LeadsTo links.old.items root → result ≡ root place }
{
    let mut at = place;
    let mut above = links[at];
    while above != at {
        let next = links[above];
        links[at] = next;
        at = next;
        above = links[at];
    }
    at
}

// Joins two places.
pub(crate) fn join(links: &mut Vec<usize>, first: usize, second: usize)
    requires leads_back { LeadsBack links.old.items }
    requires first_within { first < length links.old.items }
    requires second_within { second < length links.old.items }
    ensures { Relinks links.old.items links.new.items (joined_at first second) }
{
    let a = find(links, first);
    let b = find(links, second);
    if a < b {
        links[b] = a;
    } else {
        links[a] = b;
    }
}

// The root of each place, in one pass.
pub(crate) fn roots(alloc: Global, links: &[usize]) -> Result<Vec<usize>, NoMemory>
    requires { LeadsBack links.now }
    ensures { IfOk result (λ found. (root : ℕ → ℕ) → LeadsTo links.now root → found.items ≡ map root (counting_from 0 (length links.now))) }
{
    let mut found = Vec::with_capacity(alloc, links.len())?;
    for place in 0..links.len() {
        let above = links[place];
        let root = if above < place { found[above] } else { place };
        found.push(root)?;
    }
    Ok(found)
}
