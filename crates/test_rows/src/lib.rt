//! Tables of tests: rows `GIVEN => WANTED` of text, where a few signs stand for what can't be written in a
//! row or is long. Below stands `basics`.
//! Nothing is proved of them but that they are safe and return.
#![tactic(auto)]

pub mod rows;
pub mod writing;

pub use rows::{Answers, wrong_rows};
pub use writing::{append_number, next_number, written};
