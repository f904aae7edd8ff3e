//! What crates of tests share that ask rules and the search of goals: programs from text, theorems and their opening lists, and goals and labels as text.
//! `file_elab` and `goal_book` stand below.
//! Proved: a program's rules and theorems are over its signature, and the opening list of a theorem's type is shaped. Of what is written nothing is proved but that it is
//! safe and returns.
#![tactic(auto)]

pub mod openings;
pub mod programs;
pub mod writing;

pub use openings::{opened_theorem, theorem_type};
pub use programs::{default_sets, program_of};
pub use writing::{append_goals, append_label, append_rule, append_term};
