//! A problem whose branches are a fixed function of the node, and which may be refused memory.

ghost use Rattle.std.specs.Prelude.{◌≡◌, ◌+◌, ◌*◌, ◌<◌, [], ◌∷◌, map, IfOk};
ghost use Rattle.tree_steps.specs.Seen.{branches_seen};

use basics::NoMemory;
use std::alloc::Global;
use tree_steps::{Branch, Branches, Problem};

/// Each node `n` below `inner` has one alternative with the nodes `2 n + 1` and `2 n + 2`. Any other has one without children where
/// `is_proved` is set, and none else. Memory is refused where the node `unexpanded` is expanded, and where `uncopied` is copied.
#[derive(Drop)]
pub(crate) struct Doubling {
    pub(crate) alloc: Global,
    pub(crate) inner: u16,
    pub(crate) is_proved: bool,
    pub(crate) unexpanded: u32,
    pub(crate) uncopied: u32,
}

// One alternative with these children.
fn one_branch(alloc: Global, nodes: Vec<u32>) -> Result<Branches<u32>, NoMemory>
    ensures { IfOk result (λ made. branches_seen (λ n. n) made ≡ (100, map (λ n. n) nodes.items) ∷ []) }
{
    let mut alternatives = Vec::new(alloc);
    alternatives.push(Branch {
        percent: 100,
        nodes,
    })?;
    Ok(Branches { alternatives })
}

// The nodes below one.
fn doubled(alloc: Global, node: u32) -> Result<Vec<u32>, NoMemory>
    requires { node < 65536 }
    ensures { IfOk result (λ nodes. nodes.items ≡ (2 * node + 1) ∷ (2 * node + 2) ∷ []) }
{
    let mut nodes = Vec::new(alloc);
    nodes.push(2 * node + 1)?;
    nodes.push(2 * node + 2)?;
    Ok(nodes)
}

impl Problem for Doubling {
    ghost use Rattle.tree_tests.specs.Doublings.{doubling, doubling_low};

    type Node = u32;

    type Seen = u32;

    ghost is_own = { λ problem node. Unit {0} };

    ghost seen = { λ problem node. node };

    ghost branches = { λ problem node. doubling problem.inner problem.is_proved node };

    fn expand(&self, node: &u32) -> Result<Branches<u32>, NoMemory> {
        if *node == self.unexpanded {
            return Err(NoMemory);
        }
        if *node < u32::from(self.inner) {
            return one_branch(self.alloc, doubled(self.alloc, *node)?);
        }
        if self.is_proved {
            return one_branch(self.alloc, Vec::new(self.alloc));
        }
        Ok(Branches {
            alternatives: Vec::new(self.alloc),
        })
    }

    fn copy(&self, node: &u32) -> Result<u32, NoMemory> {
        if *node == self.uncopied {
            return Err(NoMemory);
        }
        Ok(*node)
    }

    fn same(&self, first: &u32, second: &u32) -> bool {
        *first == *second
    }

    ghost percentages = { λ problem node. doubling_low problem.inner problem.is_proved node };
}
