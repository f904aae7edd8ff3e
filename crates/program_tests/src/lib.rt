//! Tests of the way from a text to its program, and of printing. Below stand `file_elab`, `rule_sets` and
//! `file_print`. What is given and what is wanted are rows of text.
#![tactic(auto)]

#[cfg(test)]
mod elaborated;
#[cfg(test)]
mod programs;
#[cfg(test)]
mod refusals;
#[cfg(test)]
mod tables;
#[cfg(test)]
mod tests;
