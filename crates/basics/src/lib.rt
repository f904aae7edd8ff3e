//! What every layer shares: out of memory, bytes, numbers, pairs of numbers, words, names and their look-up, and the limits. Contracts
//! see a name as its bytes, and a list as the list of its entries. Nothing of this repository stands below.
//! Proved: a list holds what went in, a refused growth leaves it as it was, and `Names` finds the place of a name.
#![tactic(auto)]

pub mod bytes;
pub mod ids;
pub mod limits;
pub mod name;
pub mod names;
pub mod no_memory;
pub mod pairs;
pub mod words;

pub use bytes::Bytes;
pub use ids::{Ids, Path};
pub use name::Name;
pub use names::Names;
pub use no_memory::NoMemory;
pub use pairs::Pairs;
pub use words::Words;
