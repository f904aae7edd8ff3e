//! Tests of the search tree, over problems of small numbers. Below stand the crates of the tree. Each answer is compared with rows of text, or
//! with that of a plain scan of all nodes.
#![tactic(auto)]

#[cfg(test)]
mod chance;
#[cfg(test)]
mod doubling;
#[cfg(test)]
mod moves;
#[cfg(test)]
mod plain;
#[cfg(test)]
mod play;
#[cfg(test)]
mod reading;
#[cfg(test)]
mod refusals;
#[cfg(test)]
mod schedules;
#[cfg(test)]
mod table;
#[cfg(test)]
mod tables;
#[cfg(test)]
mod tests;
