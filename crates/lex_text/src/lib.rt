//! The tokens of a text. The limit on names is that of `basics`; characters of names are told by
//! `unicode_ident`.
//! Proved: `tokens` answers exactly the tokens of the text, and each refusal exactly at its place.
#![tactic(auto)]

pub mod lex_fault;
mod lexeme;
pub mod mark;
mod reading;
mod run;
pub mod token;
pub mod token_list;
pub mod tokens;

pub use lex_fault::LexFault;
pub use mark::Mark;
pub use token::Token;
pub use token_list::{TokenList, Tokens};
