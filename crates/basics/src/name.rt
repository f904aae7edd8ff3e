//! Names.

ghost use Rattle.std.specs.Prelude.{◌≡◌, ◌↔◌, IsTrue, IfOk};

use crate::no_memory::NoMemory;
use std::alloc::Global;
use std::marker::Model;

/// The text of a name. A contract sees the list of its bytes.
#[derive(Drop)]
pub struct Name {
    text: Vec<u8>,
}

impl Model for Name {
    ghost use Rattle.std.specs.Prelude.{List, ℕ};

    ghost Value = { List ℕ };

    ghost view = { λ a. a.text.items };
}

impl Name {
    /// The name of these bytes. It takes no memory.
    pub fn from_vec(text: Vec<u8>) -> Name
        ensures { result ≡ text.items }
    {
        Name { text }
    }

    /// Copies the bytes of a name.
    pub fn from_slice(alloc: Global, text: &[u8]) -> Result<Name, NoMemory>
        ensures { IfOk result (λ name. name ≡ text.now) }
    {
        let text = Vec::from_slice(alloc, text)?;
        Ok(Name { text })
    }

    /// The bytes of the name.
    pub fn as_bytes(&self) -> &[u8]
        ensures { result.now ≡ self.now }
    {
        self.text.as_slice()
    }

    /// Whether the name has these bytes.
    pub fn is(&self, text: &[u8]) -> bool
        ensures { IsTrue result ↔ (self.now ≡ text.now) }
    {
        self.text.as_slice() == text
    }
}
