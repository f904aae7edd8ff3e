//! Tokens of a text, as text.

ghost use Rattle.std.specs.Prelude.{◌<◌, ◌^◌, length};

use basics::{Bytes, NoMemory};
use lex_text::tokens::tokens;
use lex_text::{Token, Tokens};
use std::alloc::Global;
use test_rows::append_number;

/// Each token by its kind and its places, and the end; or the fault.
pub(crate) fn tokens_answer(alloc: Global, bytes: &[u8]) -> Result<Bytes, NoMemory>
    requires { length bytes.now < 2 ^ 32 }
{
    match tokens(alloc, bytes) {
        Ok(cut) => tokens_text(alloc, &cut),
        Err(fault) => {
            let word = format!(in alloc; "{fault:?}")?;
            Bytes::from_slice(alloc, word.as_bytes())
        }
    }
}

fn tokens_text(alloc: Global, cut: &Tokens) -> Result<Bytes, NoMemory> {
    let mut text = Bytes::new(alloc);
    for token in cut.items.as_slice() {
        append_token(alloc, &mut text, token)?;
    }
    text.append(b"end ")?;
    append_number(alloc, &mut text, cut.end)?;
    Ok(text)
}

fn append_token(alloc: Global, text: &mut Bytes, token: &Token) -> Result<(), NoMemory> {
    let mark = token.mark;
    let word = format!(in alloc; "{mark:?} ")?;
    text.append(word.as_bytes())?;
    append_number(alloc, text, token.start)?;
    text.push(b'-')?;
    append_number(alloc, text, token.end)?;
    text.append(b", ")
}
