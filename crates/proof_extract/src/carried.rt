//! Tables of the nodes that the goals of a list carry: an entry for the number of each goal.

ghost use Rattle.std.specs.Prelude.{◌≡◌, ℕ, ◌++◌, [], ◌∷◌, ◌+◌, None, Some, if◌then◌else◌, map, nat_eq, IfOk, OnOk};
ghost use Rattle.application_laws.specs.Conditions.{inside, goals_inside};
ghost use Rattle.clusters.specs.Clusters.{is_one_of};
ghost use Rattle.extraction_laws.specs.Following.{nodes_after};
ghost use Rattle.indexmap.specs.IndexMap.{get};
ghost use Rattle.lf_definitions.specs.GoalLists.{LfGoals, all_goals, opening, AreDistinct};
ghost use Rattle.lf_definitions.specs.Syntax.{LfType};
ghost use Rattle.meta_goals.specs.GoalsOf.{goals_of};
ghost use Rattle.proof_extract.specs.Tables.{IsTable, kept, has_first, given};

use crate::moved::{is_moved, moved_goals};
use basics::{NoMemory, Pairs};
use goal_clusters::Cluster;
use goal_clusters::split::clusters;
use indexmap::IndexMap;
use lf_terms::GoalList;
use meta_goals::Goals;
use std::alloc::Global;

// The table of an opening list: its goal, which has the number 0, carries the root.
pub(crate) fn root_table(alloc: Global) -> Result<IndexMap<u32, u32>, NoMemory>
    ensures { IfOk result (λ made. (a : LfType) → IsTable (opening a) (λ m. 0) (get nat_eq made)) }
{
    let mut made = IndexMap::new(alloc);
    made.insert(0, 0)?;
    Ok(made)
}

// The table of the list after a step at a node, where the first child of the alternative has this number: goals
// that are moved carry the children of their clusters, and all others what they carried.
pub(crate) fn table_after(
    alloc: Global,
    carried: &IndexMap<u32, u32>,
    node: u32,
    first: u32,
    goals: &Goals,
) -> Result<IndexMap<u32, u32>, NoMemory>
    requires { AreDistinct (all_goals (goals_of goals.now)) }
    ensures { IfOk result (λ made. (before : LfGoals) (nodes : ℕ → ℕ) → IsTable before nodes (get nat_eq carried.now) → IsTable (goals_of goals.now) (nodes_after before nodes node first (goals_of goals.now)) (get nat_eq made)) }
{
    let moved = moved_goals(alloc, carried, node, goals)?;
    let classes = clusters(alloc, &moved)?;
    let mut made = IndexMap::new(alloc);
    keep(&mut made, carried, node, &goals.proofs)?;
    keep(&mut made, carried, node, &goals.witnesses)?;
    give_classes(&mut made, first, classes.as_slice())?;
    Ok(made)
}

// Writes what goals carried that a step at a node doesn't move.
fn keep(
    made: &mut IndexMap<u32, u32>,
    carried: &IndexMap<u32, u32>,
    node: u32,
    goals: &GoalList,
) -> Result<(), NoMemory>
    ensures { OnOk result ((m : ℕ) → get nat_eq made.new m ≡ (if is_one_of goals.now m then kept node (get nat_eq carried.now m) (get nat_eq made.old m) else get nat_eq made.old m)) }
{
    let items = goals.as_slice();
    for i in 0..items.len() {
        keep_goal(made, carried, node, items[i].id)?;
    }
    Ok(())
}

// Writes what a goal carried if a step at a node doesn't move it.
fn keep_goal(
    made: &mut IndexMap<u32, u32>,
    carried: &IndexMap<u32, u32>,
    node: u32,
    goal: u32,
) -> Result<(), NoMemory>
    ensures { OnOk result ((m : ℕ) → get nat_eq made.new m ≡ (if nat_eq goal m then kept node (get nat_eq carried.now m) (get nat_eq made.old m) else get nat_eq made.old m)) }
{
    match carried.get(&goal) {
        None => Ok(()),
        Some(other) => {
            if *other != node {
                made.insert(goal, *other)?;
            }
            Ok(())
        }
    }
}

// Writes for the goals of each class its node, which count from `first` on.
fn give_classes(
    made: &mut IndexMap<u32, u32>,
    first: u32,
    classes: &[Cluster],
) -> Result<(), NoMemory>
    ensures { OnOk result ((m : ℕ) → get nat_eq made.new m ≡ given first (map (λ c. c.renaming) classes.now) m (get nat_eq made.old m)) }
{
    for i in 0..classes.len() {
        let node = number_past(first, i)?;
        give_class(made, node, &classes[i].renaming)?;
    }
    Ok(())
}

// The sum, if it is a number of a node.
fn number_past(first: u32, count: usize) -> Result<u32, NoMemory>
    ensures { IfOk result (λ node. node ≡ first + count) }
{
    if count > (u32::MAX - first) as usize {
        return Err(NoMemory);
    }
    Ok(first + count as u32)
}

// Writes a node for the first numbers of pairs.
fn give_class(made: &mut IndexMap<u32, u32>, node: u32, renaming: &Pairs) -> Result<(), NoMemory>
    ensures { OnOk result ((m : ℕ) → get nat_eq made.new m ≡ (if has_first renaming.now m then Some node else get nat_eq made.old m)) }
{
    for (goal, _) in renaming.as_slice() {
        made.insert(*goal, node)?;
    }
    Ok(())
}
