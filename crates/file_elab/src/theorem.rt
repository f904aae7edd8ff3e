//! Theorems.

ghost use Rattle.std.specs.Prelude.{◌≡◌, ◌<◌, ℕ, ◌++◌, [], ◌∷◌, IfOk, OnOk, OnErr, length, map, Some, slice_get};
ghost use Rattle.basics.specs.Places.{place_of, IsNew};
ghost use Rattle.lf_terms.specs.Types.{type_of};
ghost use Rattle.file_elab.specs.ProgramViews.{theorem_of};
ghost use Rattle.basics.specs.Limits.{most_theorems};

use basics::{Name, Names, NoMemory};
use lf_terms::Ty;
use std::alloc::Global;
use std::marker::Model;

/// A theorem: its name, and its type, which has no free variables.
#[derive(Drop)]
pub struct Theorem {
    pub name: Name,
    pub ty: Ty,
}

/// Theorems in the order in which they were declared, each under a name of its own. A contract sees
/// the list of them.
#[derive(Drop)]
pub struct TheoremList {
    items: Vec<Theorem>,
    names: Names,
}

impl Model for TheoremList {
    ghost use Rattle.std.specs.Prelude.{List, map};
    ghost use Rattle.file_elab.specs.Theorems.{LfTheorem, theorems_code};
    ghost use Rattle.file_elab.specs.TheoremLists.{KeepsNames};

    ghost Value = { List LfTheorem };

    ghost coded = { theorems_code };

    ghost use Rattle.file_elab.specs.ProgramViews.{theorem_of};

    ghost view = { λ a. map theorem_of a.items.items };

    ghost invariant = { λ a. KeepsNames (map theorem_of a.items.items) a.names };
}

impl TheoremList {
    ghost use Rattle.std.specs.Prelude.{◌≡◌, ◌<◌, ℕ, ◌++◌, [], ◌∷◌, OnOk, OnErr, length, map, slice_get, Some};
    ghost use Rattle.basics.specs.Places.{place_of, IsNew};
    ghost use Rattle.file_elab.specs.ProgramViews.{theorem_of};

    /// No theorem. It takes no memory.
    pub fn new(alloc: Global) -> TheoremList
        ensures { result ≡ [] }
    {
        TheoremList {
            items: Vec::new(alloc),
            names: Names::new(alloc),
        }
    }

    /// How many theorems there are. It takes no memory.
    pub fn len(&self) -> usize
        ensures { result ≡ length self.now }
    {
        self.items.len()
    }

    /// The theorems as a slice. It takes no memory.
    pub fn as_slice(&self) -> &[Theorem]
        ensures { map theorem_of result.now ≡ self.now }
    {
        self.items.as_slice()
    }

    /// The place of the theorem that has the name, from 0, by a look-up. It takes no memory.
    pub fn find(&self, name: &[u8]) -> Option<u32>
        ensures { result ≡ place_of (map (λ theorem. theorem.name) self.now) name.now }
    {
        self.names.find(name)
    }

    /// Adds a theorem with a new name at the end. A refusal leaves the list as it was.
    pub fn push(&mut self, alloc: Global, theorem: Theorem) -> Result<(), NoMemory>
        requires is_new { IsNew (map (λ other. other.name) self.old) theorem.name }
        requires room { length self.old < most_theorems }
        ensures ok { OnOk result (self.new ≡ self.old ++ theorem_of theorem ∷ []) }
        ensures err { OnErr result (self.new ≡ self.old) }
    {
        self.names.add(alloc, theorem.name.as_bytes())?;
        if self.items.push(theorem).is_err() {
            self.names.drop_last();
            return Err(NoMemory);
        }
        Ok(())
    }
}
