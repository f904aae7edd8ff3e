//! Tests of goals, of openings and of unification, over small terms. Below stand `meta_goals`, `meta_openings` and `meta_unify`.
//! What is given and what is wanted are rows of text.
#![tactic(auto)]

#[cfg(test)]
mod answers;
#[cfg(test)]
mod instances;
#[cfg(test)]
mod numbering;
#[cfg(test)]
mod openings;
#[cfg(test)]
mod problems;
#[cfg(test)]
mod reading;
mod setting;
#[cfg(test)]
mod shapes;
#[cfg(test)]
mod tables;
#[cfg(test)]
mod tests;
#[cfg(test)]
mod writing;
