//! Trees of texts, and the faults of the first two passes as text.

use basics::{Bytes, NoMemory};
use file_syntax::{ParseFault, parse};
use file_trees::FileTree;
use lex_text::LexFault;
use lex_text::tokens::tokens;
use std::alloc::Global;

/// The fault of one of the passes.
#[derive(Clone, Copy)]
pub(crate) enum Fault {
    /// Of the tokens.
    Lex(LexFault),
    /// Of the grammar.
    Parse(ParseFault),
}

/// The name of the fault and its place.
pub(crate) fn fault_text(alloc: Global, fault: Fault) -> Result<Bytes, NoMemory> {
    let text = match fault {
        Fault::Lex(fault) => format!(in alloc; "{fault:?}")?,
        Fault::Parse(fault) => format!(in alloc; "{fault:?}")?,
    };
    Bytes::from_slice(alloc, text.as_bytes())
}

/// The tree of a text.
pub(crate) fn tree_of(alloc: Global, bytes: &[u8]) -> Result<FileTree, Fault> {
    if bytes.len() > 100_000_000 {
        return Err(Fault::Lex(LexFault::NoMemory));
    }
    let cut = match tokens(alloc, bytes) {
        Ok(cut) => cut,
        Err(fault) => return Err(Fault::Lex(fault)),
    };
    match parse(alloc, bytes, &cut) {
        Ok(tree) => Ok(tree),
        Err(fault) => Err(Fault::Parse(fault)),
    }
}
