//! Blocks: what is answered for a theorem, and its text.
//! `file_print` stands below with the texts of terms, `proof_replay` with steps, `tree_steps` with journals, and `right_answers` with the definitions.
//! Proved: what is appended is exactly the text of the block.
#![tactic(auto)]

pub mod block;
mod events;
mod labels;
mod numerals;
mod steps;
pub mod writing;

pub use block::{Block, Verdict};
pub use writing::write_block;
