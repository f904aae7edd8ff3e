//! Goals that are joined with the goals that they mention.

ghost use Rattle.std.specs.Prelude.{◌≡◌, ◌+◌, ◌≤◌, ◌<◌, ◌++◌, ◌≢◌, AllPairs, IfOk, OnOk, length, nat_eq};
ghost use Rattle.std.specs.List.{position};
ghost use Rattle.lf_definitions.specs.GoalLists.{all_goals, ids, AreDistinct};
ghost use Rattle.lf_definitions.specs.Typing.{goal_type};
ghost use Rattle.lf_terms.specs.Targets.{goal_of};
ghost use Rattle.meta_goals.specs.GoalsOf.{goals_of};
ghost use Rattle.goal_clusters.specs.Mentioned.{numbers_in_type};
ghost use Rattle.goal_clusters.specs.Linking.{LeadsBack, Relinks, joined_if, joined_by, joined_all, AreRootsOf};

use crate::links::{join, own_links, roots};
use crate::mentioned::add_goal;
use basics::NoMemory;
use indexmap::IndexSet;
use lf_terms::{Goal, GoalList};
use meta_goals::Goals;
use std::alloc::Global;

// For each goal of a list the root of its place: the first place of the goals that mention it or are mentioned
// by it, directly or through others.
pub(crate) fn roots_of(alloc: Global, goals: &Goals) -> Result<Vec<usize>, NoMemory>
    requires { AreDistinct (all_goals (goals_of goals.now)) }
    ensures { IfOk result (λ found. AreRootsOf (all_goals (goals_of goals.now)) found.items) }
{
    let numbers = numbers_of(alloc, goals)?;
    let mut links = own_links(alloc, numbers.len())?;
    join_all(alloc, &mut links, &numbers, 0, &goals.proofs)?;
    join_all(
        alloc,
        &mut links,
        &numbers,
        goals.proofs.len(),
        &goals.witnesses,
    )?;
    let found = roots(alloc, links.as_slice())?;
    Ok(found)
}

// The numbers of goals, whose places are found by a look-up.
fn numbers_of(alloc: Global, goals: &Goals) -> Result<IndexSet<u32>, NoMemory>
    requires { AreDistinct (all_goals (goals_of goals.now)) }
    ensures { IfOk result (λ numbers. numbers.keys ≡ ids (all_goals (goals_of goals.now))) }
{
    let mut numbers = IndexSet::new(alloc);
    add_numbers(&mut numbers, &goals.proofs)?;
    add_numbers(&mut numbers, &goals.witnesses)?;
    Ok(numbers)
}

// Adds the numbers of a list.
fn add_numbers(numbers: &mut IndexSet<u32>, goals: &GoalList) -> Result<(), NoMemory>
    requires { AllPairs (λ m n. m ≢ n) (numbers.old.keys ++ ids goals.now) }
    ensures { OnOk result (numbers.new.keys ≡ numbers.old.keys ++ ids goals.now) }
{
    let items = goals.as_slice();
    for i in 0..items.len() {
        numbers.insert_full(items[i].id)?;
    }
    Ok(())
}

// Joins the places of goals, from `first` on, with those of the goals that they mention.
fn join_all(
    alloc: Global,
    links: &mut Vec<usize>,
    numbers: &IndexSet<u32>,
    first: usize,
    goals: &GoalList,
) -> Result<(), NoMemory>
    requires leads_back { LeadsBack links.old.items }
    requires as_long { length links.old.items ≡ length numbers.now.keys }
    requires within { first + length goals.now ≤ length links.old.items }
    ensures { OnOk result (Relinks links.old.items links.new.items (joined_all numbers.now.keys first goals.now)) }
{
    let items = goals.as_slice();
    for i in 0..items.len() {
        join_goal(alloc, links, numbers, first + i, &items[i])?;
    }
    Ok(())
}

// Joins the place of a goal with those of the goals that it mentions.
fn join_goal(
    alloc: Global,
    links: &mut Vec<usize>,
    numbers: &IndexSet<u32>,
    place: usize,
    goal: &Goal,
) -> Result<(), NoMemory>
    requires leads_back { LeadsBack links.old.items }
    requires as_long { length links.old.items ≡ length numbers.now.keys }
    requires within { place < length links.old.items }
    ensures { OnOk result (Relinks links.old.items links.new.items (joined_by numbers.now.keys place (numbers_in_type (goal_type (goal_of goal.now))))) }
{
    let mut mentioned = Vec::new(alloc);
    add_goal(&mut mentioned, goal)?;
    join_each(links, numbers, place, mentioned.as_slice());
    Ok(())
}

// Joins a place with those of numbers.
fn join_each(links: &mut Vec<usize>, numbers: &IndexSet<u32>, place: usize, mentioned: &[u32])
    requires leads_back { LeadsBack links.old.items }
    requires as_long { length links.old.items ≡ length numbers.now.keys }
    requires within { place < length links.old.items }
    ensures { Relinks links.old.items links.new.items (joined_by numbers.now.keys place mentioned.now) }
{
    for number in mentioned {
        join_number(links, numbers, place, *number);
    }
}

// Joins a place with that of a number, if there is one.
fn join_number(links: &mut Vec<usize>, numbers: &IndexSet<u32>, place: usize, number: u32)
    requires leads_back { LeadsBack links.old.items }
    requires as_long { length links.old.items ≡ length numbers.now.keys }
    requires within { place < length links.old.items }
    ensures { Relinks links.old.items links.new.items (joined_if place (position (nat_eq number) numbers.now.keys)) }
{
    if let Some(other) = numbers.get_index_of(&number) {
        join(links, place, other);
    }
}
