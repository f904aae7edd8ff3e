//! Declarations, types and terms of files as they are written: trees with the places of their parts.
//! It stands on no crate of the repository.
//! Proved: the calls that make and read trees meet their plain data, and `place` answers a term's
//! place.
#![tactic(auto)]

pub mod decl_tree;
pub mod places;
pub mod span;
pub mod spans;
pub mod term_tree;
pub mod type_tree;

pub use decl_tree::{BuildWord, DeclTree, DeclTrees, FileTree, PhaseWord, RuleTree, TheoremTree};
pub use places::place;
pub use span::{BinderSpan, Span};
pub use spans::{BinderSpans, Spans};
pub use term_tree::{Part, TermTree, TermTrees};
pub use type_tree::{Binder, Binders, Last, TypeTree};
