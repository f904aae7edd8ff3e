//! Answers of the top call, as text.

use crate::rows::first_file;
use aesop_session::run_still;
use basics::{Bytes, Ids, Name, NoMemory, Words};
use run_io::{MemorySink, MemorySource, SureSink, SureSource};
use std::alloc::Global;
use test_rows::{append_number, next_number, written};

/// The status in a line and what the sink holds, for the words of a line and a file. The numbers are the
/// source's piece, the call at which it fails, the sink's piece, and the call at which it fails.
pub(crate) fn top_answer(
    alloc: Global,
    line: &str,
    file: &str,
    numbers: &str,
) -> Result<Bytes, NoMemory> {
    let words = words_of(alloc, line)?;
    let mut numbers = numbers.split_whitespace();
    let piece = next_number(&mut numbers).max(1) as usize;
    let failing = one_of(alloc, next_number(&mut numbers))?;
    let mut source = MemorySource::new(written(alloc, file)?, piece, failing);
    let piece = next_number(&mut numbers) as usize;
    let failing = one_of(alloc, next_number(&mut numbers))?;
    let mut sink = MemorySink::new(alloc, 1 << 20, piece, failing)?;
    let status = memory_status(alloc, &words, &mut source, &mut sink);
    report(alloc, status, sink.held())
}

fn memory_status(
    alloc: Global,
    words: &Words,
    source: &mut MemorySource,
    sink: &mut MemorySink,
) -> u8 {
    run_still(alloc, words, source, sink).code()
}

/// The same for the first file over ends that never fail.
pub(crate) fn sure_answer(alloc: Global) -> Result<Bytes, NoMemory> {
    let words = words_of(alloc, "prove --workers 0")?;
    let mut source = SureSource::new(written(alloc, first_file())?);
    let mut sink = SureSink::with_room(alloc, 4096)?;
    let status = sure_status(alloc, &words, &mut source, &mut sink);
    report(alloc, status, sink.held())
}

fn sure_status(alloc: Global, words: &Words, source: &mut SureSource, sink: &mut SureSink) -> u8 {
    run_still(alloc, words, source, sink).code()
}

fn report(alloc: Global, status: u8, held: &[u8]) -> Result<Bytes, NoMemory> {
    let mut text = Bytes::new(alloc);
    append_number(alloc, &mut text, u32::from(status))?;
    text.push(b'\n')?;
    text.append(held)?;
    Ok(text)
}

fn words_of(alloc: Global, line: &str) -> Result<Words, NoMemory> {
    let mut words = Words::new(alloc);
    for word in line.split_whitespace() {
        words.push(Name::from_slice(alloc, word.as_bytes())?)?;
    }
    Ok(words)
}

fn one_of(alloc: Global, id: u32) -> Result<Ids, NoMemory> {
    let mut ids = Ids::new(alloc);
    ids.push(id)?;
    Ok(ids)
}
