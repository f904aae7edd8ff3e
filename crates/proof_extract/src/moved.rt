//! Goals that a step moves to other nodes.

ghost use Rattle.std.specs.Prelude.{◌≡◌, ◌++◌, [], ◌∷◌, nat_eq, IfOk, OnOk};
ghost use Rattle.application_laws.specs.Conditions.{inside, goals_inside};
ghost use Rattle.indexmap.specs.IndexMap.{get};
ghost use Rattle.lf_terms.specs.Targets.{goal_of};
ghost use Rattle.meta_goals.specs.GoalsOf.{goals_of};
ghost use Rattle.proof_extract.specs.Tables.{moves};

use basics::NoMemory;
use indexmap::IndexMap;
use lf_terms::{Goal, GoalList};
use meta_goals::Goals;
use std::alloc::Global;

// Whether a step at a node moves a goal: it has no entry, or that node.
pub(crate) fn is_moved(carried: &IndexMap<u32, u32>, node: u32, goal: u32) -> bool
    ensures { result ≡ moves node (get nat_eq carried.now goal) }
{
    match carried.get(&goal) {
        None => true,
        Some(other) => *other == node,
    }
}

// The goals of a list that a step at a node moves, which share what these hold.
pub(crate) fn moved_goals(
    alloc: Global,
    carried: &IndexMap<u32, u32>,
    node: u32,
    goals: &Goals,
) -> Result<Goals, NoMemory>
    ensures { IfOk result (λ moved. goals_of moved ≡ goals_inside (λ m. moves node (get nat_eq carried.now m)) (goals_of goals.now)) }
{
    let proofs = moved_of(alloc, carried, node, &goals.proofs)?;
    let witnesses = moved_of(alloc, carried, node, &goals.witnesses)?;
    Ok(Goals { proofs, witnesses })
}

// Those of one part of a list.
fn moved_of(
    alloc: Global,
    carried: &IndexMap<u32, u32>,
    node: u32,
    goals: &GoalList,
) -> Result<GoalList, NoMemory>
    ensures { IfOk result (λ moved. moved ≡ inside (λ m. moves node (get nat_eq carried.now m)) goals.now) }
{
    let mut moved = GoalList::new(alloc);
    let items = goals.as_slice();
    for i in 0..items.len() {
        add_moved(&mut moved, carried, node, &items[i])?;
    }
    Ok(moved)
}

// Adds a goal if a step at a node moves it.
fn add_moved(
    moved: &mut GoalList,
    carried: &IndexMap<u32, u32>,
    node: u32,
    goal: &Goal,
) -> Result<(), NoMemory>
    ensures { OnOk result (moved.new ≡ moved.old ++ inside (λ m. moves node (get nat_eq carried.now m)) (goal_of goal.now ∷ [])) }
{
    if is_moved(carried, node, goal.id) {
        moved.push(goal.copy()?)?;
    }
    Ok(())
}
