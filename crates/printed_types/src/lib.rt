//! Printed types read back. Below stand `printed_trees` with their trees and `file_elab` with elaboration.
//! Proved: what is printed for a well-formed type reads back to it by tokens, grammar and elaboration.
#![tactic(auto)]

pub mod laws;
