//! Tables of places and arguments.

ghost use Rattle.std.specs.Prelude.{◌≡◌, ◌+◌, ◌-◌, ◌^◌, ◌<◌, length, if◌then◌else◌, All, IfOk};
ghost use Rattle.meta_openings.specs.Tables.{AreMarks, AreCounts, AreFixed, AreTables};

use basics::{Ids, NoMemory, Pairs};
use std::alloc::Global;

/// The places of a context: whether each is kept, and how many before it are, and before the end.
#[derive(Drop)]
pub struct Places<'a> {
    pub alloc: Global,
    pub kept: &'a Ids,
    pub marks: Vec<bool>,
    pub before: Vec<usize>,
}

/// The tables of a context with so many entries.
pub fn places_of<'a>(alloc: Global, kept: &'a Ids, count: usize) -> Result<Places<'a>, NoMemory>
    requires { All (λ place. place < count) kept.now }
    ensures kept { IfOk result (λ places. places.kept.now ≡ kept.now) }
    ensures tables { IfOk result (λ places. AreTables places count) }
{
    let marks = marks_of(alloc, kept, count)?;
    let before = counts_of(alloc, kept, marks.as_slice())?;
    Ok(Places {
        alloc,
        kept,
        marks,
        before,
    })
}

// Whether each place is kept.
fn marks_of(alloc: Global, kept: &Ids, count: usize) -> Result<Vec<bool>, NoMemory>
    requires { All (λ place. place < count) kept.now }
    ensures { IfOk result (λ marks. AreMarks kept.now count marks.items) }
{
    let mut marks: Vec<bool> = vec![in alloc; false; count]?;
    let places = kept.as_slice();
    for i in 0..places.len() {
        marks[places[i] as usize] = true;
    }
    Ok(marks)
}

// How many places are kept before each, and before the end.
fn counts_of(alloc: Global, kept: &Ids, marks: &[bool]) -> Result<Vec<usize>, NoMemory>
    requires { AreMarks kept.now (length marks.now) marks.now }
    ensures { IfOk result (λ before. AreCounts kept.now (length marks.now) before.items) }
{
    let mut before = Vec::new(alloc);
    let mut count = 0;
    before.push(count)?;
    for place in 0..marks.len() {
        count = more(count, marks[place])?;
        before.push(count)?;
    }
    Ok(before)
}

// One more, if it is marked.
fn more(count: usize, mark: bool) -> Result<usize, NoMemory>
    ensures { IfOk result (λ next. next ≡ (if mark then count + 1 else count)) }
{
    if !mark {
        return Ok(count);
    }
    match count.checked_add(1) {
        None => Err(NoMemory),
        Some(next) => Ok(next),
    }
}

/// For each of so many arguments, the place that it is fixed to.
pub fn fixed_places(
    alloc: Global,
    fixed: &Pairs,
    count: usize,
) -> Result<Vec<Option<u32>>, NoMemory>
    requires { All (λ pair. pair.0 < count) fixed.now }
    ensures { IfOk result (λ places. AreFixed fixed.now count places.items) }
{
    let mut places: Vec<Option<u32>> = vec![in alloc; None; count]?;
    let pairs = fixed.as_slice();
    for i in 0..pairs.len() {
        let (argument, place) = pairs[i];
        let argument = argument as usize;
        places[argument] = places[argument].or(Some(place));
    }
    Ok(places)
}
