//! What calls with words are given in tests and what they answer, as text, where a row of a table is answered by a
//! call that is lent a runtime. Below stands `test_rows`.
//! Nothing is proved of them but that they are safe and return.
#![tactic(auto)]

use basics::{Bytes, Name, NoMemory, Words};
use std::alloc::Global;
use test_rows::{append_number, written};

/// The words of a command line.
///
/// # Errors
///
/// `NoMemory` where memory runs out.
pub fn words_of(alloc: Global, line: &str) -> Result<Words, NoMemory> {
    let mut words = Words::new(alloc);
    for word in line.split_whitespace() {
        words.push(Name::from_slice(alloc, word.as_bytes())?)?;
    }
    Ok(words)
}

/// A status in a line, and after it what was written.
///
/// # Errors
///
/// `NoMemory` where memory runs out.
pub fn status_text(alloc: Global, status: u8, held: &[u8]) -> Result<Bytes, NoMemory> {
    let mut text = Bytes::new(alloc);
    append_number(alloc, &mut text, u32::from(status))?;
    text.push(b'\n')?;
    text.append(held)?;
    Ok(text)
}

/// What is given in a row.
pub fn given_in(row: &str) -> &str {
    let (given, _) = row.split_once("=>").unwrap_or((row, ""));
    given.trim()
}

/// Whether an answer is the one that a row wants, which is written by `written`.
///
/// # Errors
///
/// `NoMemory` where memory runs out.
pub fn is_wanted(alloc: Global, row: &str, found: &[u8]) -> Result<bool, NoMemory> {
    let (_, wanted) = row.split_once("=>").unwrap_or((row, "no answer"));
    let wanted = written(alloc, wanted.trim())?;
    Ok(found == wanted.as_slice())
}
