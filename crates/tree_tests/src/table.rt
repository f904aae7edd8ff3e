//! A problem that is given by a table.

ghost use Rattle.std.specs.Prelude.{◌≡◌, IfOk, map, slice_get};
ghost use Rattle.tree_steps.specs.Seen.{branches_seen};
ghost use Rattle.tree_tests.specs.Tables.{capped};

use basics::NoMemory;
use std::alloc::Global;
use tree_steps::{Branch, Branches, Problem};

/// Rows of branches. A node is the number of a row, whose branches it has; a number without a row has none.
#[derive(Drop)]
pub(crate) struct Table {
    pub(crate) alloc: Global,
    pub(crate) rows: Vec<Branches<u32>>,
}

// The branches of a row, with no percentage above 100.
fn copy_row(alloc: Global, row: &Branches<u32>) -> Result<Branches<u32>, NoMemory>
    ensures { IfOk result (λ made. branches_seen (λ n. n) made ≡ map capped row.now.alternatives.items) }
{
    let mut alternatives = Vec::new(alloc);
    for branch in row.alternatives.as_slice() {
        let nodes = Vec::from_slice(alloc, branch.nodes.as_slice())?;
        alternatives.push(Branch {
            percent: branch.percent.min(100),
            nodes,
        })?;
    }
    Ok(Branches { alternatives })
}

impl Problem for Table {
    ghost use Rattle.std.specs.Prelude.{slice_get};
    ghost use Rattle.tree_tests.specs.Tables.{row_branches, capped_low};

    type Node = u32;

    type Seen = u32;

    ghost is_own = { λ table node. Unit {0} };

    ghost seen = { λ table node. node };

    ghost branches = { λ table node. row_branches (slice_get table.rows.items node) };

    fn expand(&self, node: &u32) -> Result<Branches<u32>, NoMemory> {
        match self.rows.get(*node as usize) {
            Some(row) => copy_row(self.alloc, row),
            None => Ok(Branches {
                alternatives: Vec::new(self.alloc),
            }),
        }
    }

    fn copy(&self, node: &u32) -> Result<u32, NoMemory> {
        Ok(*node)
    }

    fn same(&self, first: &u32, second: &u32) -> bool {
        *first == *second
    }

    ghost percentages = { λ table node. capped_low (slice_get table.rows.items node) };
}
