//! Tokens.

ghost use Rattle.std.specs.Prelude.{◌≡◌, length};
ghost use Rattle.lex_text.specs.Tokens.{IsWithin, text_of};

use crate::mark::Mark;

/// A token: its kind, and the places in the text, in bytes, where it starts and ends. The byte at
/// `end` is no part of it.
#[derive(Clone, Copy, Debug, PartialEq, Eq)]
pub struct Token {
    pub mark: Mark,
    pub start: u32,
    pub end: u32,
}

impl Token {
    /// The bytes of the token in the text that it was cut from.
    pub fn text<'a>(&self, bytes: &'a [u8]) -> &'a [u8]
        requires { IsWithin (length bytes.now) self.now }
        ensures { result.now ≡ text_of bytes.now self.now }
    {
        &bytes[self.start as usize..self.end as usize]
    }
}
