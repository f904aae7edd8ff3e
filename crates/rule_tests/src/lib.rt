//! Tests of what rules offer for a goal, and of the index of rules. Below stand `file_elab`, `rule_index` and the crates of the builders.
//! What is given and what is wanted are rows of text, over programs of the file language.
#![tactic(auto)]

#[cfg(test)]
mod answers;
#[cfg(test)]
mod builders;
#[cfg(test)]
mod lookups;
#[cfg(test)]
mod sources;
#[cfg(test)]
mod tables;
#[cfg(test)]
mod tests;
#[cfg(test)]
mod writing;
