//! Rows of what is given and what is wanted.

use crate::writing::written;
use basics::{Bytes, NoMemory};
use std::alloc::Global;

/// Something that answers what is given to it, as text.
pub trait Answers {
    /// The answer to a given text.
    ///
    /// # Errors
    ///
    /// `NoMemory` where memory runs out.
    fn answer(&self, alloc: Global, given: &str) -> Result<Bytes, NoMemory>;
}

/// The rows with another answer than they want, each in a line. What is wanted is written by `written`.
///
/// # Errors
///
/// `NoMemory` where memory runs out.
pub fn wrong_rows<A: Answers>(alloc: Global, answers: &A, rows: &str) -> Result<String, NoMemory> {
    let mut wrong = String::new(alloc);
    for row in rows.lines() {
        if !is_answered(alloc, answers, row)? {
            wrong.push_str(row)?;
            wrong.push_str("\n")?;
        }
    }
    Ok(wrong)
}

fn is_answered<A: Answers>(alloc: Global, answers: &A, row: &str) -> Result<bool, NoMemory> {
    let (given, wanted) = row.split_once("=>").unwrap_or((row, "no answer"));
    let found = answers.answer(alloc, given.trim())?;
    let wanted = written(alloc, wanted.trim())?;
    Ok(found.as_slice() == wanted.as_slice())
}
