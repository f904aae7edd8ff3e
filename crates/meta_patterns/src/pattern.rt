//! Patterns: different variables, as arguments read as them.

ghost use Rattle.std.specs.Prelude.{◌≡◌, ◌<◌, ◌≤◌, All, IfOk, IsTrue, length, None, Some, option_map, slice_index_or};
ghost use Rattle.unification.specs.Patterns.{pattern_of, where_different};
ghost use Rattle.meta_patterns.specs.Variables.{own_numbers, placed_number, TabledIfDifferent, HasBelow};

use crate::reading::{are_own, variables_of};
use basics::{Ids, NoMemory};
use lf_terms::Terms;
use std::alloc::Global;
use std::marker::Model;

/// Different variables, the oldest first, that the arguments of a metavariable read as. A contract sees the list of their numbers.
#[derive(Drop)]
pub struct Pattern {
    variables: Variables,
}

// All variables of a context in order are by far the most frequent, and take no memory. Beside others stands a table: by the number of each, that of the entry at its
// place.
#[derive(Drop)]
enum Variables {
    Own(u32),
    Chosen(Ids, Vec<Option<u32>>),
}

impl Model for Pattern {
    ghost use Rattle.std.specs.Prelude.{List, ℕ};

    ghost Value = { List ℕ };

    ghost use Rattle.meta_patterns.specs.Variables.{numbers_kept, IsTabled};

    ghost view = { λ a. numbers_kept a.variables };

    ghost invariant = { λ a. IsTabled a.variables };
}

impl Pattern {
    /// How many variables there are.
    pub fn len(&self) -> usize
        ensures { result ≡ length self.now }
    {
        match &self.variables {
            Variables::Own(count) => *count as usize,
            Variables::Chosen(numbers, _) => numbers.len(),
        }
    }

    /// Whether they are known to be all variables of a context in order. It takes one step.
    pub fn is_own(&self) -> bool
        ensures { IsTrue result → self.now ≡ own_numbers (length self.now) }
    {
        match &self.variables {
            Variables::Own(_) => true,
            Variables::Chosen(..) => false,
        }
    }

    // A number below which each variable is one of these.
    pub(crate) fn below(&self) -> u32
        ensures { HasBelow self.now result }
    {
        match &self.variables {
            Variables::Own(count) => *count,
            Variables::Chosen(..) => 0,
        }
    }

    /// The number of the entry at whose place a variable stands, if it is one of these, in a context with as many entries. It takes one step.
    pub fn placed_number(&self, number: u32) -> Option<u32>
        ensures { result ≡ placed_number self.now number }
    {
        match &self.variables {
            Variables::Own(count) => own_number(*count, number),
            Variables::Chosen(_, table) => number_in(table.as_slice(), number as usize),
        }
    }
}

// Each variable of a context stands at its own place.
fn own_number(count: u32, number: u32) -> Option<u32>
    ensures { result ≡ placed_number (own_numbers count) number }
{
    if number < count { Some(number) } else { None }
}

fn number_in(table: &[Option<u32>], number: usize) -> Option<u32>
    ensures { result ≡ slice_index_or table.now number None }
{
    if number < table.len() {
        table[number]
    } else {
        None
    }
}

/// The pattern that arguments are, if each reads as a variable, and these differ.
pub fn pattern_of(alloc: Global, args: &Terms) -> Result<Option<Pattern>, NoMemory>
    ensures { IfOk result (λ found. found ≡ pattern_of args.now) }
{
    let count = args.len();
    if count > u32::MAX as usize {
        return Err(NoMemory);
    }
    if are_own(count as u32, args)? {
        return Ok(Some(Pattern {
            variables: Variables::Own(count as u32),
        }));
    }
    match variables_of(alloc, args)? {
        None => Ok(None),
        Some(numbers) => chosen(alloc, numbers),
    }
}

// The pattern of these variables, if they differ.
fn chosen(alloc: Global, numbers: Ids) -> Result<Option<Pattern>, NoMemory>
    ensures { IfOk result (λ found. found ≡ where_different (Some numbers)) }
{
    match table_of(alloc, numbers.as_slice())? {
        None => Ok(None),
        Some(table) => Ok(Some(Pattern {
            variables: Variables::Chosen(numbers, table),
        })),
    }
}

// The number of the entry at the place of each variable, if they differ. The last is at the place of entry 0.
fn table_of(alloc: Global, numbers: &[u32]) -> Result<Option<Vec<Option<u32>>>, NoMemory>
    ensures { IfOk result (λ found. TabledIfDifferent numbers.now (option_map (λ table. table.items) found)) }
{
    let count = numbers.len();
    if count > u32::MAX as usize {
        return Err(NoMemory);
    }
    let size = table_size(numbers)?;
    let mut table: Vec<Option<u32>> = vec![in alloc; None; size]?;
    for i in 0..count {
        let number = numbers[count - 1 - i] as usize;
        if table[number].is_some() {
            return Ok(None);
        }
        table[number] = Some(i as u32);
    }
    Ok(Some(table))
}

// A number that is greater than each of these.
fn table_size(numbers: &[u32]) -> Result<usize, NoMemory>
    ensures { IfOk result (λ size. All (λ n. n < size) numbers.now) }
{
    let mut greatest = 0;
    for i in 0..numbers.len() {
        greatest = greater(greatest, numbers[i]);
    }
    match (greatest as usize).checked_add(1) {
        None => Err(NoMemory),
        Some(size) => Ok(size),
    }
}

fn greater(a: u32, b: u32) -> u32
    ensures first { a ≤ result }
    ensures second { b ≤ result }
{
    if a < b { b } else { a }
}
