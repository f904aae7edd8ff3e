//! Answers of the top call with workers, as text.

use crate::gates::OpenGate;
use aesop_session::{run, run_still};
use basics::{Bytes, NoMemory, Words};
use run_io::{SureSink, SureSource};
use std::alloc::Global;
use std::sync::Wait;
use std::thread::Threads;
use test_calls::{given_in, is_wanted, status_text, words_of};
use test_rows::written;
use tree_shared::Gate;

/// The most bytes of a document.
const ROOM: usize = 1 << 16;

/// What is given in the rows of a table.
#[derive(Clone, Copy)]
pub(crate) enum Given {
    /// The words of a command line.
    Words,
    /// A file, for three workers.
    File,
}

/// The rows with another answer than they want, each in a line. These are no `Answers`: a block of an impl can't pass its runtime on to
/// threads.
pub(crate) fn wrong_rows<R: Threads + Wait + Sync>(
    rt: &R,
    alloc: Global,
    asked: Given,
    rows: &str,
) -> Result<String, NoMemory> {
    let mut wrong = String::new(alloc);
    for row in rows.lines() {
        if !is_row_answered(rt, alloc, asked, row)? {
            wrong.push_str(row)?;
            wrong.push_str("\n")?;
        }
    }
    Ok(wrong)
}

fn is_row_answered<R: Threads + Wait + Sync>(
    rt: &R,
    alloc: Global,
    asked: Given,
    row: &str,
) -> Result<bool, NoMemory> {
    let answer = match asked {
        Given::Words => words_answer(rt, alloc, given_in(row)),
        Given::File => team_answer(rt, alloc, "prove --workers 3", given_in(row), &OpenGate),
    };
    let found = answer?;
    is_wanted(alloc, row, found.as_slice())
}

/// The status in a line and what the sink holds, for the words of a line and a file, where workers pass a gate.
pub(crate) fn team_answer<R: Threads + Wait + Sync, G: Gate + Sync>(
    rt: &R,
    alloc: Global,
    line: &str,
    file: &str,
    gate: &G,
) -> Result<Bytes, NoMemory> {
    let words = words_of(alloc, line)?;
    let mut source = SureSource::new(written(alloc, file)?);
    let mut sink = SureSink::with_room(alloc, ROOM)?;
    let status = team_status(rt, alloc, &words, &mut source, &mut sink, gate);
    status_text(alloc, status, sink.held())
}

fn team_status<R: Threads + Wait + Sync, G: Gate + Sync>(
    rt: &R,
    alloc: Global,
    words: &Words,
    source: &mut SureSource,
    sink: &mut SureSink,
    gate: &G,
) -> u8 {
    run(rt, alloc, words, source, sink, gate).code()
}

/// The same without workers.
fn still_answer(alloc: Global, file: &str) -> Result<Bytes, NoMemory> {
    let words = words_of(alloc, "prove --workers 0")?;
    let mut source = SureSource::new(written(alloc, file)?);
    let mut sink = SureSink::with_room(alloc, ROOM)?;
    let status = still_status(alloc, &words, &mut source, &mut sink);
    status_text(alloc, status, sink.held())
}

fn still_status(alloc: Global, words: &Words, source: &mut SureSource, sink: &mut SureSink) -> u8 {
    run_still(alloc, words, source, sink).code()
}

/// What the words of a line answer to the empty file, and `usage` in place of the usage line with its status.
fn words_answer<R: Threads + Wait + Sync>(
    rt: &R,
    alloc: Global,
    line: &str,
) -> Result<Bytes, NoMemory> {
    let found = team_answer(rt, alloc, line, "", &OpenGate)?;
    if found.as_slice() == usage() {
        return Bytes::from_slice(alloc, b"usage");
    }
    Ok(found)
}

fn usage() -> &'static [u8] {
    b"4\nusage: aesop prove [--workers N] [--budget N] [--trace] | check | gen N | big N\n"
}

/// How many of so many runs with four workers, and of one of the caller alone, answer a file otherwise than is wanted. The events of a
/// search depend on the order of its workers' steps, and are left out.
pub(crate) fn wrong_runs<R: Threads + Wait + Sync>(
    rt: &R,
    alloc: Global,
    file: &str,
    wanted: &str,
    count: u32,
) -> Result<u32, NoMemory> {
    let wanted = written(alloc, wanted)?;
    let mut wrong: u32 = 0;
    if !is_answered_alone(alloc, file, wanted.as_slice())? {
        wrong = 1;
    }
    for _ in 0..count {
        if !is_answered(rt, alloc, file, wanted.as_slice())? {
            wrong = wrong.saturating_add(1);
        }
    }
    Ok(wrong)
}

fn is_answered_alone(alloc: Global, file: &str, wanted: &[u8]) -> Result<bool, NoMemory> {
    let found = still_answer(alloc, file)?;
    let found = without_events(alloc, found.as_slice())?;
    Ok(found.as_slice() == wanted)
}

fn is_answered<R: Threads + Wait + Sync>(
    rt: &R,
    alloc: Global,
    file: &str,
    wanted: &[u8],
) -> Result<bool, NoMemory> {
    let found = team_answer(rt, alloc, "prove --workers 4", file, &OpenGate)?;
    let found = without_events(alloc, found.as_slice())?;
    Ok(found.as_slice() == wanted)
}

fn without_events(alloc: Global, text: &[u8]) -> Result<Bytes, NoMemory> {
    let mut kept = Bytes::new(alloc);
    for line in text.split(|byte| *byte == b'\n') {
        if !line.is_empty() && !is_event(line) {
            kept.append(line)?;
            kept.push(b'\n')?;
        }
    }
    Ok(kept)
}

fn is_event(line: &[u8]) -> bool {
    line.starts_with(b"claim ") || line.starts_with(b"commit ") || line.starts_with(b"release ")
}
