//! Tests of the top call with workers. Below stand `aesop_session` and `run_io`, and the gate of `tree_shared`. What is given and what is
//! wanted are rows of text that do not depend on the order of the workers' steps.
#![tactic(auto)]

#[cfg(test)]
mod answers;
#[cfg(test)]
mod gates;
#[cfg(test)]
mod tests;
