//! The terms of LF with their shapes and types, goals, and signatures. `basics` and `lf_definitions` stand
//! below, and contracts see terms, shapes, types, goals and signatures as the plain data of `lf_definitions`.
//! Copies share structure. Each shared block keeps a bound of its variables, so that a substitution shares
//! what it can't change.
//! Proved: substitution, eta-long forms, shapes and equality meet their definitions, and a signature
//! is well formed and finds its names.
#![tactic(auto)]

pub mod eta;
mod extent;
pub mod found;
pub mod goal;
mod goal_numbers;
pub mod head;
pub mod same;
pub mod shape;
pub mod shape_of;
pub mod shaped;
pub mod signature;
pub mod subst;
pub mod term;
pub mod ty;

pub use found::Found;
pub use goal::{Goal, GoalList};
pub use head::Head;
pub use shape::{MetaShape, MetaShapes, Shape, Shapes};
pub use signature::Signature;
pub use term::{Body, Term, Terms};
pub use ty::{Atom, Ctx, Kind, Ty, Tys};
