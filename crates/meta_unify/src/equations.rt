//! Equations between atoms.

ghost use Rattle.std.specs.Prelude.{◌≡◌, ◌++◌, [], ◌∷◌, OnOk, OnErr, length, map};
ghost use Rattle.meta_unify.specs.Equations.{atoms_of};

use basics::NoMemory;
use lf_terms::Atom;
use std::alloc::Global;
use std::marker::Model;

/// Two atoms that are to become one.
#[derive(Drop)]
pub struct Equation {
    pub left: Atom,
    pub right: Atom,
}

/// Equations, the first one first. A contract sees the list of the pairs of atoms.
#[derive(Drop)]
pub struct Equations {
    items: Vec<Equation>,
}

impl Model for Equations {
    ghost use Rattle.std.specs.Prelude.{List, map};
    ghost use Rattle.lf_definitions.specs.Syntax.{LfAtom};
    ghost use Rattle.meta_unify.specs.Equations.{atoms_of, pairs_code};

    ghost Value = { List (LfAtom × LfAtom) };

    ghost coded = { pairs_code };

    ghost view = { λ a. map atoms_of a.items.items };
}

impl Equations {
    /// No equations. It takes no memory.
    pub fn new(alloc: Global) -> Equations
        ensures { result ≡ [] }
    {
        Equations {
            items: Vec::new(alloc),
        }
    }

    /// The equations of a vector. It takes no memory.
    pub fn from_vec(items: Vec<Equation>) -> Equations
        ensures { result ≡ map atoms_of items.items }
    {
        Equations { items }
    }

    /// The equations as a slice. It takes no memory.
    pub fn as_slice(&self) -> &[Equation]
        ensures { map atoms_of result.now ≡ self.now }
    {
        self.items.as_slice()
    }

    /// Adds an equation at the end. A refusal leaves the list as it was.
    pub fn push(&mut self, equation: Equation) -> Result<(), NoMemory>
        ensures ok { OnOk result (self.new ≡ self.old ++ atoms_of equation ∷ []) }
        ensures err { OnErr result (self.new ≡ self.old) }
    {
        self.items.push(equation)?;
        Ok(())
    }
}
