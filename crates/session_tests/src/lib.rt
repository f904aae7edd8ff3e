//! Tests of the top call over sources and sinks in memory, and of those ends themselves. Below stand
//! `aesop_session` and `run_io`. What is given and what is wanted are rows of text.
#![tactic(auto)]

#[cfg(test)]
mod answers;
#[cfg(test)]
mod ends;
#[cfg(test)]
mod rows;
#[cfg(test)]
mod tests;
