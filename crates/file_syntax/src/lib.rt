//! The grammar of files over the tokens of `lex_text`, whose answers are the trees of `file_trees`.
//! Proved: `parse` answers the one tree that the grammar gives to the tokens of a text, and refuses
//! exactly where no file goes on or what opens is nested too deep.
#![tactic(auto)]

mod nesting;
pub mod parse_fault;
pub mod parsing;
mod rule_steps;
mod state;
mod steps;
mod term_steps;
pub mod terminal;
mod type_steps;

pub use parse_fault::ParseFault;
pub use parsing::{a_file_has_one_tree, parse};
pub use terminal::{Keyword, Terminal};
