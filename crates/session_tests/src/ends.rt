//! Answers of reading and writing over each kind of end, as text.

use basics::{Bytes, Ids, NoMemory};
use run_io::{
    MemorySink, MemorySource, ReadEnd, Source, StdSink, StdSource, WriteEnd, read_all, write_piece,
};
use std::alloc::Global;
use std::io;
use std::io::{ErrorKind, Read};
use test_rows::{append_number, next_number};

fn text() -> &'static [u8] {
    b"family p : type. const a : p."
}

/// So many bytes of the text, or all where it has not so many.
fn prefix(size: u32) -> &'static [u8] {
    text().get(..size as usize).unwrap_or(text())
}

/// What reading all of a source answers, and how many bytes are left.
pub(crate) fn read_answer(alloc: Global, numbers: &str) -> Result<Bytes, NoMemory> {
    let mut numbers = numbers.split_whitespace();
    let bytes = prefix(next_number(&mut numbers));
    let piece = next_number(&mut numbers).max(1) as usize;
    let failing = one_of(alloc, next_number(&mut numbers))?;
    let limit = next_number(&mut numbers);
    let mut source = MemorySource::new(Bytes::from_slice(alloc, bytes)?, piece, failing);
    let word = read_word(alloc, &mut source, bytes, limit);
    report(alloc, word, source.left().len())
}

fn read_word<S: Source>(alloc: Global, source: &mut S, bytes: &[u8], limit: u32) -> &'static str {
    match read_all(alloc, source, limit) {
        Ok(found) => same_word(found.as_slice(), bytes),
        Err(ReadEnd::Fault) => "fault",
        Err(ReadEnd::TooLong) => "long",
        Err(ReadEnd::NoMemory) => "memory",
    }
}

fn same_word(found: &[u8], wanted: &[u8]) -> &'static str {
    if found == wanted { "ok" } else { "other" }
}

/// What writing a piece answers, and how many bytes of it are held.
pub(crate) fn write_answer(alloc: Global, numbers: &str) -> Result<Bytes, NoMemory> {
    let mut numbers = numbers.split_whitespace();
    let bytes = prefix(next_number(&mut numbers));
    let room = next_number(&mut numbers) as usize;
    let piece = next_number(&mut numbers) as usize;
    let failing = one_of(alloc, next_number(&mut numbers))?;
    let mut sink = MemorySink::new(alloc, room, piece, failing)?;
    let word = write_word(&mut sink, bytes);
    if !bytes.starts_with(sink.held()) {
        return report(alloc, "other", 0);
    }
    report(alloc, word, sink.held().len())
}

fn write_word(sink: &mut MemorySink, bytes: &[u8]) -> &'static str {
    match write_piece(sink, bytes) {
        Ok(()) => "ok",
        Err(WriteEnd::Fault) => "fault",
        Err(WriteEnd::Took0) => "took0",
    }
}

fn report(alloc: Global, word: &str, count: usize) -> Result<Bytes, NoMemory> {
    let mut text = Bytes::from_slice(alloc, word.as_bytes())?;
    text.push(b' ')?;
    append_number(alloc, &mut text, u32::try_from(count).unwrap_or(u32::MAX))?;
    Ok(text)
}

fn one_of(alloc: Global, id: u32) -> Result<Ids, NoMemory> {
    let mut ids = Ids::new(alloc);
    ids.push(id)?;
    Ok(ids)
}

/// Gives a few bytes, and fails from then on.
#[derive(Drop)]
struct Breaks {
    left: u32,
}

impl Read for Breaks {
    fn read(&mut self, buf: &mut [u8]) -> io::Result<usize> {
        if self.left == 0 {
            return Err(io::Error::from(ErrorKind::Other));
        }
        self.left -= 1;
        if buf.is_empty() {
            return Ok(0);
        }
        buf[0] = b'x';
        Ok(1)
    }
}

/// The words for reading a whole reader and one that fails.
pub(crate) fn reader_words(alloc: Global) -> [&'static str; 2] {
    let mut whole = StdSource::new(text());
    let mut broken = StdSource::new(Breaks { left: 3 });
    [
        read_word(alloc, &mut whole, text(), 100),
        read_word(alloc, &mut broken, text(), 100),
    ]
}

/// Whether a writer with less room than the text takes its first bytes, and refuses the others.
pub(crate) fn is_writer_filled() -> bool {
    let mut held = [0; 20];
    let mut sink = StdSink::new(held.as_mut_slice());
    let answer = write_piece(&mut sink, text());
    answer == Err(WriteEnd::Took0) && held.as_slice() == prefix(20)
}
