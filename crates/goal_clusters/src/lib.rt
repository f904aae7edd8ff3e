//! Lists of goals split into clusters: goals that mention each other, directly or through others. `meta_goals` stands below, and `clusters` has the definitions that contracts
//! cite.
//! Proved: a list is split into exactly the clusters of the definition, in order, each numbered by its places. Each mention is met once, and no goal is compared with another.
#![tactic(auto)]

mod deal;
mod links;
mod mentioned;
mod mentions;
pub mod split;

pub use split::Cluster;
