//! Numbers by chance, and tables of them.

use crate::table::Table;
use basics::NoMemory;
use std::alloc::Global;
use tree_steps::{Branch, Branches};

/// A linear congruential generator.
#[derive(Clone, Copy)]
pub(crate) struct Chance {
    state: u64,
}

/// A generator that begins with a number.
pub(crate) fn chance_from(seed: u64) -> Chance {
    Chance { state: seed }
}

impl Chance {
    /// A number below a bound, and 0 where that is 0.
    pub(crate) fn below(&mut self, bound: u32) -> u32 {
        self.state = self
            .state
            .wrapping_mul(6_364_136_223_846_793_005)
            .wrapping_add(1_442_695_040_888_963_407);
        let high = self.state >> 33;
        u32::try_from(high % u64::from(bound.max(1))).unwrap_or(0)
    }

    /// A percentage, of which some come often.
    fn percent(&mut self) -> u8 {
        match self.below(6) {
            0 => 0,
            1 => 50,
            2 => 100,
            3 => 1,
            _ => u8::try_from(self.below(101)).unwrap_or(0),
        }
    }
}

/// A table of one to eight rows.
pub(crate) fn chance_table(alloc: Global, chance: &mut Chance) -> Result<Table, NoMemory> {
    let count = chance.below(8).saturating_add(1);
    let mut rows = Vec::new(alloc);
    for _ in 0..count {
        rows.push(chance_row(alloc, chance, count)?)?;
    }
    Ok(Table { alloc, rows })
}

/// A row of at most three alternatives.
fn chance_row(alloc: Global, chance: &mut Chance, rows: u32) -> Result<Branches<u32>, NoMemory> {
    let mut alternatives = Vec::new(alloc);
    for _ in 0..chance.below(4) {
        let percent = chance.percent();
        let nodes = chance_nodes(alloc, chance, rows)?;
        alternatives.push(Branch { percent, nodes })?;
    }
    Ok(Branches { alternatives })
}

/// At most three nodes.
fn chance_nodes(alloc: Global, chance: &mut Chance, rows: u32) -> Result<Vec<u32>, NoMemory> {
    let mut nodes = Vec::new(alloc);
    for _ in 0..chance.below(4) {
        nodes.push(chance.below(rows))?;
    }
    Ok(nodes)
}
