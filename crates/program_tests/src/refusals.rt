//! Refusals of any pass, as text.

use basics::{Bytes, NoMemory};
use file_elab::{ElabFault, Program, elaborate};
use file_syntax::{ParseFault, parse};
use lex_text::LexFault;
use lex_text::tokens::tokens;
use std::alloc::Global;

/// The fault of one of the passes.
#[derive(Clone, Copy)]
pub(crate) enum Refusal {
    /// Of the tokens.
    Lex(LexFault),
    /// Of the grammar.
    Parse(ParseFault),
    /// Of the elaboration.
    Elab(ElabFault),
}

/// The name of the fault and its place.
pub(crate) fn refusal_text(alloc: Global, refusal: Refusal) -> Result<Bytes, NoMemory> {
    let text = match refusal {
        Refusal::Lex(fault) => format!(in alloc; "{fault:?}")?,
        Refusal::Parse(fault) => format!(in alloc; "{fault:?}")?,
        Refusal::Elab(fault) => format!(in alloc; "{fault:?}")?,
    };
    Bytes::from_slice(alloc, text.as_bytes())
}

/// The program of a text.
pub(crate) fn program_of(alloc: Global, bytes: &[u8]) -> Result<Program, Refusal> {
    if bytes.len() > 100_000_000 {
        return Err(Refusal::Lex(LexFault::NoMemory));
    }
    let cut = match tokens(alloc, bytes) {
        Ok(cut) => cut,
        Err(fault) => return Err(Refusal::Lex(fault)),
    };
    let tree = match parse(alloc, bytes, &cut) {
        Ok(tree) => tree,
        Err(fault) => return Err(Refusal::Parse(fault)),
    };
    match elaborate(alloc, bytes, &tree) {
        Ok(program) => Ok(program),
        Err(fault) => Err(Refusal::Elab(fault)),
    }
}
