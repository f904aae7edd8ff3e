//! A problem of two nodes that are to be expanded at once.

ghost use Rattle.std.specs.Prelude.{◌≡◌, [], ◌∷◌, map, IfOk};
ghost use Rattle.tree_steps.specs.Seen.{branches_seen};

use crate::marks::Marks;
use basics::NoMemory;
use std::alloc::Global;
use tree_steps::{Branch, Branches, Problem};

/// The root 0 has one alternative with the nodes 1 and 2, and each of these has one without children. These two meet by the marks where they are expanded.
#[derive(Drop)]
pub(crate) struct Meeting {
    pub(crate) alloc: Global,
    pub(crate) marks: Marks,
}

/// One alternative with these children.
pub(crate) fn one_branch(alloc: Global, nodes: Vec<u32>) -> Result<Branches<u32>, NoMemory>
    ensures { IfOk result (λ made. branches_seen (λ n. n) made ≡ (100, map (λ n. n) nodes.items) ∷ []) }
{
    let mut alternatives = Vec::new(alloc);
    alternatives.push(Branch {
        percent: 100,
        nodes,
    })?;
    Ok(Branches { alternatives })
}

// The nodes below the root.
fn both(alloc: Global) -> Result<Vec<u32>, NoMemory>
    ensures { IfOk result (λ nodes. nodes.items ≡ 1 ∷ 2 ∷ []) }
{
    let mut nodes = Vec::new(alloc);
    nodes.push(1)?;
    nodes.push(2)?;
    Ok(nodes)
}

impl Problem for Meeting {
    ghost use Rattle.worker_tests.specs.Fakes.{meeting, meeting_low};

    type Node = u32;

    type Seen = u32;

    ghost is_own = { λ problem node. Unit {0} };

    ghost seen = { λ problem node. node };

    ghost branches = { λ problem node. meeting node };

    fn expand(&self, node: &u32) -> Result<Branches<u32>, NoMemory> {
        if *node == 0 {
            return one_branch(self.alloc, both(self.alloc)?);
        }
        self.marks.meet(*node);
        one_branch(self.alloc, Vec::new(self.alloc))
    }

    fn copy(&self, node: &u32) -> Result<u32, NoMemory> {
        Ok(*node)
    }

    fn same(&self, first: &u32, second: &u32) -> bool {
        *first == *second
    }

    ghost percentages = { λ problem node. meeting_low node };
}
