//! Tables from text.

use crate::table::Table;
use basics::NoMemory;
use std::alloc::Global;
use std::str::SplitWhitespace;
use tree_steps::{Branch, Branches};

/// The table of a text: between bars stand the rows, between commas the alternatives of a row, and an alternative is its percentage and then
/// its nodes.
pub(crate) fn table_of(alloc: Global, text: &str) -> Result<Table, NoMemory> {
    let mut rows = Vec::new(alloc);
    for row in text.split('|') {
        rows.push(row_of(alloc, row)?)?;
    }
    Ok(Table { alloc, rows })
}

fn row_of(alloc: Global, text: &str) -> Result<Branches<u32>, NoMemory> {
    let mut alternatives = Vec::new(alloc);
    for alternative in text.split(',') {
        if !alternative.trim().is_empty() {
            alternatives.push(alternative_of(alloc, alternative)?)?;
        }
    }
    Ok(Branches { alternatives })
}

fn alternative_of(alloc: Global, text: &str) -> Result<Branch<u32>, NoMemory> {
    let mut words = text.split_whitespace();
    let percent = next_word(&mut words).parse().unwrap_or(0);
    let mut nodes = Vec::new(alloc);
    for word in words {
        nodes.push(word.parse().unwrap_or(0))?;
    }
    Ok(Branch { percent, nodes })
}

/// The next word, and none where there is no more.
pub(crate) fn next_word<'a>(words: &mut SplitWhitespace<'a>) -> &'a str {
    words.next().unwrap_or("")
}
