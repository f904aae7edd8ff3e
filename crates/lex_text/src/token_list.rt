//! Lists of tokens.

ghost use Rattle.std.specs.Prelude.{◌≡◌, ◌++◌, [], ◌∷◌, OnOk, OnErr, length};

use crate::token::Token;
use std::alloc::{AllocError, Global};
use std::marker::Model;

/// Tokens in order. A contract sees the list of them.
#[derive(Drop)]
pub struct TokenList {
    items: Vec<Token>,
}

impl Model for TokenList {
    ghost use Rattle.std.specs.Prelude.{List};
    ghost use Rattle.lex_text.specs.declared.token.Token.{Token};

    ghost Value = { List Token };

    ghost view = { λ a. a.items.items };
}

impl TokenList {
    /// No tokens. It takes no memory.
    pub fn new(alloc: Global) -> TokenList
        ensures { result ≡ [] }
    {
        TokenList {
            items: Vec::new(alloc),
        }
    }

    /// How many tokens there are.
    pub fn len(&self) -> usize
        ensures { result ≡ length self.now }
    {
        self.items.len()
    }

    /// The tokens as a slice.
    pub fn as_slice(&self) -> &[Token]
        ensures { result.now ≡ self.now }
    {
        self.items.as_slice()
    }

    /// Adds a token at the end. A refusal leaves the list as it was.
    pub fn push(&mut self, token: Token) -> Result<(), AllocError>
        ensures ok { OnOk result (self.new ≡ self.old ++ token ∷ []) }
        ensures err { OnErr result (self.new ≡ self.old) }
    {
        self.items.push(token)?;
        Ok(())
    }
}

/// The tokens of a text, and its length in bytes.
#[derive(Drop)]
pub struct Tokens {
    pub items: TokenList,
    pub end: u32,
}
