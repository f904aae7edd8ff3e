//! What is given in the tables.

use crate::answers::top_answer;
use crate::ends::{read_answer, write_answer};
use basics::{Bytes, NoMemory};
use std::alloc::Global;
use test_rows::Answers;

/// What the given part of a row is.
#[derive(Clone, Copy)]
pub(crate) enum Given {
    /// A file, for the words `prove --workers 0`.
    File,
    /// The same in large pieces.
    LongFile,
    /// The words of a command line.
    Words,
    /// The source's piece, the call at which it fails, the sink's piece, and the call at which it fails.
    Faults,
    /// How many bytes a source has, its piece, the call that fails, and the limit.
    Reads,
    /// How many bytes are written, the sink's room, its piece, and the call that fails.
    Writes,
}

impl Answers for Given {
    fn answer(&self, alloc: Global, text: &str) -> Result<Bytes, NoMemory> {
        match self {
            Given::File => top_answer(alloc, "prove --workers 0", text, "7 9999 5 9999"),
            Given::LongFile => top_answer(
                alloc,
                "prove --workers 0",
                text,
                "65536 9999 65536 99999",
            ),
            Given::Words => top_answer(alloc, text, "family", "7 9999 5 9999"),
            Given::Faults => top_answer(alloc, "prove --workers 0", first_file(), text),
            Given::Reads => read_answer(alloc, text),
            Given::Writes => write_answer(alloc, text),
        }
    }
}

/// The smallest file with something to prove.
pub(crate) fn first_file() -> &'static str {
    "family p : type. const a : p. rule ra : unsafe 50 apply a. theorem t : p."
}
