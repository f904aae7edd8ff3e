//! Searches by none and by several workers.

ghost use Rattle.std.specs.Prelude.{◌<◌};

use crate::regular::Regular;
use basics::NoMemory;
use std::alloc::Global;
use std::str::SplitWhitespace;
use std::sync::Wait;
use std::sync::atomic::AtomicU64;
use std::thread::Threads;
use test_rows::next_number;
use tree_shared::{Crew, Gate, search, search_still};
use tree_steps::{Event, Journal, Problem, Root};

/// A gate that does nothing.
pub(crate) struct NoGate;

impl Gate for NoGate {
    fn between(&self, _seat: u32, _turn: u32) {}
}

/// What a search found of its root, and how many nodes it committed.
#[derive(Clone, Copy)]
pub(crate) struct Outcome {
    pub(crate) verdict: Root,
    pub(crate) commits: u32,
}

// How many commits a journal has.
fn commits_of(journal: &Journal) -> u32 {
    let mut count: u32 = 0;
    for place in 0..journal.len() {
        if let Event::Commit(_, _, _) = journal.event(place) {
            count = count.saturating_add(1);
        }
    }
    count
}

/// What comes of a search from the root 0 in the caller alone.
pub(crate) fn alone<P: Problem<Node = u32>>(
    alloc: Global,
    problem: &P,
    budget: u32,
) -> Result<Outcome, NoMemory>
    requires budget { 0 < budget }
    requires own { P.is_own problem.now 0 }
{
    let tree = search_still(alloc, problem, 0, budget)?;
    Ok(Outcome {
        verdict: tree.verdict(),
        commits: commits_of(tree.journal()),
    })
}

/// What comes of a search from the root 0 by some workers.
pub(crate) fn together<'x, R: Threads + Wait + Sync, P: Problem<Node = u32> + Sync, G: Gate + Sync>(
    crew: &'x Crew<'x, R, G>,
    alloc: Global,
    problem: &'x P,
    budget: u32,
) -> Result<Outcome, NoMemory>
    requires budget { 0 < budget }
    requires workers { 0 < crew.now.workers }
    requires own { P.is_own problem.now 0 }
{
    let tree = search(crew, alloc, problem, 0, budget)?;
    Ok(Outcome {
        verdict: tree.verdict(),
        commits: commits_of(tree.journal()),
    })
}

/// The problem of a row: how many alternatives with how many children there are down to which depth, what the last nodes are, and at which call memory is refused.
pub(crate) fn regular(alloc: Global, words: &mut SplitWhitespace<'_>) -> Regular {
    Regular {
        alloc,
        alternatives: u16::try_from(next_number(words)).unwrap_or(0),
        children: u16::try_from(next_number(words)).unwrap_or(0),
        last: u16::try_from(next_number(words)).unwrap_or(0),
        is_proved: words.next() == Some("proved"),
        refused: u64::from(next_number(words)),
        calls: AtomicU64::new(0),
    }
}

/// What is asked of a row: what none and one to four workers find, or what two find, or none as memory is refused.
#[derive(Clone, Copy)]
pub(crate) enum Asked {
    Verdict,
    Refusal,
}

// A word for what is known of a root.
fn word_of(verdict: Root) -> &'static str {
    match verdict {
        Root::Proved => "proved",
        Root::Stuck => "stuck",
        Root::Undecided => "undecided",
    }
}

// The verdict of a problem, or a word for what is wrong: that some workers found another than none, or that more nodes than the budget were committed.
fn verdict_of<R: Threads + Wait + Sync>(
    rt: &R,
    alloc: Global,
    problem: &Regular,
    budget: u32,
) -> Result<&'static str, NoMemory>
    requires { 0 < budget }
{
    let still = alone(alloc, problem, budget)?;
    for workers in 1..5 {
        let crew = Crew {
            rt,
            gate: &NoGate,
            workers,
        };
        let found = together(&crew, alloc, problem, budget)?;
        if found.verdict != still.verdict {
            return Ok("another verdict");
        }
        if found.commits > budget || still.commits > budget {
            return Ok("too many commits");
        }
    }
    Ok(word_of(still.verdict))
}

// The verdict that two workers find where one of them is refused memory, or a word for the search being refused.
fn end_of<R: Threads + Wait + Sync>(
    rt: &R,
    alloc: Global,
    problem: &Regular,
    budget: u32,
) -> &'static str
    requires { 0 < budget }
{
    let crew = Crew {
        rt,
        gate: &NoGate,
        workers: 2,
    };
    match together(&crew, alloc, problem, budget) {
        Ok(found) => word_of(found.verdict),
        Err(NoMemory) => "refused",
    }
}

// What is found for a given text.
fn found<R: Threads + Wait + Sync>(
    rt: &R,
    alloc: Global,
    asked: Asked,
    given: &str,
) -> Result<&'static str, NoMemory> {
    let mut words = given.split_whitespace();
    let problem = regular(alloc, &mut words);
    let budget = next_number(&mut words).max(1);
    match asked {
        Asked::Verdict => verdict_of(rt, alloc, &problem, budget),
        Asked::Refusal => Ok(end_of(rt, alloc, &problem, budget)),
    }
}

/// The rows for which something else is found than they want, each in a line.
pub(crate) fn wrong_searches<R: Threads + Wait + Sync>(
    rt: &R,
    alloc: Global,
    asked: Asked,
    rows: &str,
) -> Result<String, NoMemory> {
    let mut wrong = String::new(alloc);
    for row in rows.lines() {
        let (given, wanted) = row.split_once("=>").unwrap_or((row, "no answer"));
        if found(rt, alloc, asked, given)? != wanted.trim() {
            wrong.push_str(row)?;
            wrong.push_str("\n")?;
        }
    }
    Ok(wrong)
}
