//! The children that branches give.

ghost use Rattle.std.specs.Prelude.{◌≡◌, ◌++◌, ℕ, ◌+◌, ◌*◌, ◌/◌, ◌<◌, ◌≤◌, ◌^◌, List, [], ◌∷◌, All, IfOk, IfSome, length, sum, map};
ghost use Rattle.std.specs.Vec.{vec_capacity};
ghost use Rattle.std.specs.List.Sorted.{IsPermutation};
ghost use Rattle.tree_runs.specs.Shapes.{IsShape, nodes_count};
ghost use Rattle.tree_queue.specs.Orders.{IsPlaced};
ghost use Rattle.tree_queue.specs.Queues.{IsQueueOf};
ghost use Rattle.tree_steps.specs.Children.{alike, children_of, nodes_made, widths};

use crate::branches::Branches;
use basics::{Ids, NoMemory};
use std::alloc::Global;
use tree_queue::{Entry, Queue};
use tree_shape::Shape;

// How many children each alternative has.
pub(crate) fn counts_of<N>(alloc: Global, branches: &Branches<N>) -> Result<Ids, NoMemory>
    ensures { IfOk result (λ counts. counts ≡ widths branches.now.alternatives.items) }
{
    let mut counts = Ids::new(alloc);
    for branch in branches.alternatives.as_slice() {
        let len = branch.nodes.len();
        if len > u32::MAX as usize {
            return Err(NoMemory);
        }
        counts.push(len as u32)?;
    }
    Ok(counts)
}

// The sum of numbers, where it fits.
pub(crate) fn total_of(counts: &[u32]) -> Option<usize>
    ensures { IfSome result (λ total. total ≡ sum counts.now) }
{
    let mut total: usize = 0;
    for count in counts {
        total = total.checked_add(*count as usize)?;
    }
    Some(total)
}

// The priority of a child.
fn share(priority: u64, percent: u8) -> u64
    requires { percent ≤ 100 }
    ensures { result ≡ priority * percent / 100 }
{
    (u128::from(priority) * u128::from(percent) / 100) as u64
}

// Puts entries of one depth and priority, of the nodes from a number on.
fn put_alike(queue: &mut Queue, shape: &Shape, first: Entry, count: u32)
    requires shape { IsShape shape.now.shape }
    requires queue { IsQueueOf shape.now.shape queue.old.entries }
    requires room { count ≤ queue.old.spare }
    requires numbers { first.node + count ≤ nodes_count shape.now.shape }
    requires placed { All (IsPlaced shape.now.shape) (alike first.node first.depth first.priority count) }
    ensures queue { IsQueueOf shape.now.shape queue.new.entries }
    ensures put { IsPermutation (queue.old.entries ++ alike first.node first.depth first.priority count) queue.new.entries }
    ensures spare { queue.new.spare + count ≡ queue.old.spare }
{
    let _end = shape.len();
    for place in 0..count {
        queue.put(
            shape,
            Entry {
                node: first.node + place,
                depth: first.depth,
                priority: first.priority,
            },
        );
    }
}

// Puts the entries of the children that branches give, which have the numbers from one on.
pub(crate) fn put_children<N>(
    queue: &mut Queue,
    shape: &Shape,
    parent: Entry,
    first: u32,
    branches: &Branches<N>,
)
    requires shape { IsShape shape.now.shape }
    requires queue { IsQueueOf shape.now.shape queue.old.entries }
    requires room { sum (widths branches.now.alternatives.items) ≤ queue.old.spare }
    requires numbers { first + sum (widths branches.now.alternatives.items) ≤ nodes_count shape.now.shape }
    requires percentages { All (λ branch. branch.percent ≤ 100) branches.now.alternatives.items }
    requires depth { parent.depth + 1 < 2 ^ 32 }
    requires placed { All (IsPlaced shape.now.shape) (children_of first parent.depth parent.priority branches.now.alternatives.items) }
    ensures queue { IsQueueOf shape.now.shape queue.new.entries }
    ensures put { IsPermutation (queue.old.entries ++ children_of first parent.depth parent.priority branches.now.alternatives.items) queue.new.entries }
    ensures spare { queue.new.spare + sum (widths branches.now.alternatives.items) ≡ queue.old.spare }
{
    let _end = shape.len();
    let mut next = first;
    for branch in branches.alternatives.as_slice() {
        let count = branch.nodes.len() as u32;
        let child = Entry {
            node: next,
            depth: parent.depth + 1,
            priority: share(parent.priority, branch.percent),
        };
        put_alike(queue, shape, child, count);
        next += count;
    }
}

// Adds contents at the end of a vector that has room for them.
fn append_nodes<N: Drop>(others: &mut Vec<N>, nodes: Vec<N>)
    requires { length others.old.items + length nodes.items ≤ vec_capacity others.old }
    ensures items { others.new.items ≡ others.old.items ++ nodes.items }
    ensures capacity { vec_capacity others.new ≡ vec_capacity others.old }
{
    for node in nodes {
        others.push_reserved(node);
    }
}

// Moves the contents that branches give to the end of a vector that has room for them.
pub(crate) fn move_nodes<N: Drop>(others: &mut Vec<N>, branches: Branches<N>)
    requires { length others.old.items + sum (widths branches.alternatives.items) ≤ vec_capacity others.old }
    ensures { others.new.items ≡ others.old.items ++ nodes_made branches.alternatives.items }
{
    for branch in branches.alternatives {
        append_nodes(others, branch.nodes);
    }
}
