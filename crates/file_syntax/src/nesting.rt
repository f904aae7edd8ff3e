//! How deep a token is nested.

ghost use Rattle.std.specs.Prelude.{◌≡◌, ◌<◌, ◌≤◌, ◌+◌, [], ◌∷◌, OnOk, OnErr, sum};
ghost use Rattle.file_syntax.specs.Nesting.{open_after, one_deeper, one_closed};

use crate::terminal::Terminal;
use std::alloc::{AllocError, Global};
use std::marker::Model;

/// What is open. A contract sees, for each open parenthesis and brace, the innermost first, one more
/// than the number of abstractions in it whose body goes on.
#[derive(Drop)]
pub(crate) struct Nesting {
    counts: Vec<u32>,
    depth: u32,
}

impl Model for Nesting {
    ghost use Rattle.std.specs.Prelude.{◌≡◌, List, ℕ, reverse, sum};

    ghost Value = { List ℕ };

    ghost view = { λ a. reverse a.counts.items };

    ghost invariant = { λ a. a.depth ≡ sum (reverse a.counts.items) };
}

impl Nesting {
    /// Nothing open. It takes no memory.
    pub(crate) fn new(alloc: Global) -> Nesting
        ensures { result ≡ [] }
    {
        Nesting {
            counts: Vec::new(alloc),
            depth: 0,
        }
    }

    /// How deep what comes next is nested.
    pub(crate) fn depth(&self) -> u32
        ensures { result ≡ sum self.now }
    {
        self.depth
    }

    /// A parenthesis or a brace opens.
    fn enter(&mut self) -> Result<(), AllocError>
        requires { sum self.old < 1000 }
        ensures ok { OnOk result (self.new ≡ 1 ∷ self.old) }
        ensures err { OnErr result (self.new ≡ self.old) }
    {
        self.counts.push(1)?;
        self.depth += 1;
        Ok(())
    }

    /// An abstraction begins. It takes no memory.
    fn deepen(&mut self)
        requires { sum self.old < 1000 }
        ensures { self.new ≡ one_deeper self.old }
    {
        if let Some(count) = self.counts.last_mut() {
            *count += 1;
            self.depth += 1;
        }
    }

    /// A parenthesis or a brace closes.
    fn leave(&mut self)
        ensures { self.new ≡ one_closed self.old }
    {
        if let Some(count) = self.counts.pop() {
            self.depth -= count;
        }
    }

    /// What is open after the terminal. It is as it was where memory is refused.
    pub(crate) fn pass(&mut self, terminal: Terminal) -> Result<(), AllocError>
        requires { sum self.old < 1000 }
        ensures ok { OnOk result (self.new ≡ open_after terminal self.old) }
        ensures err { OnErr result (self.new ≡ self.old) }
    {
        match terminal {
            Terminal::LParen(_) | Terminal::LBrace(_) => self.enter(),
            Terminal::LBracket(_) => {
                self.deepen();
                Ok(())
            }
            Terminal::RParen(_) | Terminal::RBrace(_) => {
                self.leave();
                Ok(())
            }
            _ => Ok(()),
        }
    }
}
