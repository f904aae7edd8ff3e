//! Tests of the way from a text to its tree. Below stand `lex_text`, `file_syntax` and `file_trees`. What is
//! given and what is wanted are rows of text.
#![tactic(auto)]

#[cfg(test)]
mod files;
#[cfg(test)]
mod tables;
#[cfg(test)]
mod tests;
#[cfg(test)]
mod tokens_of;
#[cfg(test)]
mod trees;
