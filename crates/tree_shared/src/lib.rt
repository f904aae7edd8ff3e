//! Searches over any problem: of one worker in the caller alone, and of several on one tree under a lock. Below stand `tree_steps`, with the tree, and the definitions
//! in `tree_runs`.
//! Proved: a search in the caller alone does the still run of its root and its budget, and answers the tree of that. What stands under the lock is, whenever the lock is
//! free, the tree of this problem, root and budget, with seats below the number of workers; and the tree that several workers answer is settled. That a second worker
//! runs, and that nodes are expanded while no lock is held, no clause says.
#![tactic(auto)]

mod alone;
mod desk;
pub mod gate;
mod moves;
pub mod name;
mod room;
mod step;
pub mod still;
pub mod workers;

pub use gate::Gate;
pub use name::TreeName;
pub use still::search_still;
pub use workers::{Crew, search};
