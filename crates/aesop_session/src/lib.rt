//! The top calls: each reads a file, searches a proof of each theorem and writes the answers.
//! They stand on `command_words` for the options, on `lex_text`, `file_syntax` and `file_elab` for what a file declares, on `goal_book`
//! for the order of its rules, on `theorem_search` for the answer to a theorem, on `answer_text` for its text, and on `run_io` for the
//! outside.
//! Proved: what each status of `run` and of `run_still` says of the words, the bytes that were read and the bytes that were written.
//! Every accepted file is answered: each block is what so many workers answer for its theorem, and it is right.
#![tactic(auto)]

mod accepting;
mod block;
mod book;
mod document;
mod input;
mod prover;
pub mod refusal;
pub mod status;
mod top;
mod writing;

pub use refusal::{Refusal, RefusalKind};
pub use status::Status;
pub use top::{run, run_still};
