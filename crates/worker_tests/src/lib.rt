//! Tests of several workers on one tree, over problems whose nodes are numbers. Below stand the crates of the tree.
#![tactic(auto)]

#[cfg(test)]
mod marks;
#[cfg(test)]
mod meeting;
#[cfg(test)]
mod regular;
#[cfg(test)]
mod searches;
#[cfg(test)]
mod tables;
#[cfg(test)]
mod tests;
