//! Problems whose nodes are alike at each depth, and which may be refused memory.

ghost use Rattle.std.specs.Prelude.{◌≡◌, ◌+◌, ◌<◌, map, replicate, IfOk};
ghost use Rattle.tree_steps.specs.Seen.{branches_seen};
ghost use Rattle.worker_tests.specs.Fakes.{fan};

use crate::meeting::one_branch;
use basics::NoMemory;
use std::alloc::Global;
use std::sync::atomic::{AtomicU64, Ordering};
use tree_steps::{Branch, Branches, Problem};

/// A node is its depth. One above the last depth has so many alternatives with so many children each. One of the last depth has one without children where `is_proved` is set, and
/// none else. Memory is refused at the call of `expand` of the number `refused`, from 1 on.
#[derive(Drop)]
pub(crate) struct Regular {
    pub(crate) alloc: Global,
    pub(crate) last: u16,
    pub(crate) alternatives: u16,
    pub(crate) children: u16,
    pub(crate) is_proved: bool,
    pub(crate) refused: u64,
    pub(crate) calls: AtomicU64,
}

// So many children that are alike.
fn children_of(alloc: Global, count: u16, child: u32) -> Result<Vec<u32>, NoMemory>
    ensures { IfOk result (λ nodes. nodes.items ≡ replicate count child) }
{
    let mut nodes = Vec::new(alloc);
    for place in 0..count {
        nodes.push(child)?;
    }
    Ok(nodes)
}

// So many alternatives that are alike.
fn fan_of(
    alloc: Global,
    alternatives: u16,
    children: u16,
    child: u32,
) -> Result<Branches<u32>, NoMemory>
    ensures { IfOk result (λ made. branches_seen (λ n. n) made ≡ fan alternatives children child) }
{
    let mut all = Vec::new(alloc);
    for place in 0..alternatives {
        let nodes = children_of(alloc, children, child)?;
        all.push(Branch {
            percent: 100,
            nodes,
        })?;
    }
    Ok(Branches { alternatives: all })
}

impl Problem for Regular {
    ghost use Rattle.worker_tests.specs.Fakes.{regular, regular_low};

    type Node = u32;

    type Seen = u32;

    ghost is_own = { λ problem node. Unit {0} };

    ghost seen = { λ problem node. node };

    ghost branches = { λ problem node. regular problem.last problem.alternatives problem.children problem.is_proved node };

    fn expand(&self, node: &u32) -> Result<Branches<u32>, NoMemory> {
        let call = self.calls.fetch_add(1, Ordering::SeqCst);
        if call.wrapping_add(1) == self.refused {
            return Err(NoMemory);
        }
        if *node < u32::from(self.last) {
            return fan_of(self.alloc, self.alternatives, self.children, *node + 1);
        }
        if self.is_proved {
            return one_branch(self.alloc, Vec::new(self.alloc));
        }
        Ok(Branches {
            alternatives: Vec::new(self.alloc),
        })
    }

    fn copy(&self, node: &u32) -> Result<u32, NoMemory> {
        Ok(*node)
    }

    fn same(&self, first: &u32, second: &u32) -> bool {
        *first == *second
    }

    ghost percentages = { λ problem node. regular_low problem.last problem.alternatives problem.children problem.is_proved node };
}
