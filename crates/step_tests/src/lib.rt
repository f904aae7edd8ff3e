//! Tests of the steps of the search: normal forms, alternatives, clusters, and scripts that are followed. Below stand `goal_expand`, `goal_clusters` and `proof_replay`.
//! What is given and what is wanted are rows of text, over programs of the file language.
#![tactic(auto)]

#[cfg(test)]
mod answers;
#[cfg(test)]
mod following;
#[cfg(test)]
mod putting;
#[cfg(test)]
mod scripts;
#[cfg(test)]
mod sources;
#[cfg(test)]
mod tables;
#[cfg(test)]
mod tests;
#[cfg(test)]
mod writing;
