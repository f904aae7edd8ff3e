//! Types and kinds.

ghost use Rattle.std.specs.Prelude.{◌≡◌, IfOk, IsTrue, false, [], length};
ghost use Rattle.lf_terms.specs.Extents.{Covers, StaysWithin, ExcludesMetavariables, InType, InContext};
ghost use Rattle.lf_terms.specs.Types.{type_of, types_of, atom_of};

use crate::extent::Extent;
use crate::term::Terms;
use basics::NoMemory;
use std::alloc::Global;
use std::marker::Model;
use std::sync::Arc;

/// A type: its binders, each in the scope of those before it, over a family with arguments.
#[cycle(ty)]
#[derive(Drop)]
pub struct Ty {
    pub binders: Tys,
    pub family: u32,
    pub args: Terms,
}

/// A list of types. A contract sees the list of them.
#[cycle(ty)]
#[derive(Drop)]
pub struct Tys {
    items: Option<Arc<Vec<Ty>>>,
    extent: Extent,
}

/// A context: the types of its variables, oldest first.
pub type Ctx = Tys;

impl Model for Tys {
    ghost use Rattle.std.specs.Prelude.{List};
    ghost use Rattle.lf_definitions.specs.Syntax.{LfType, types_size};
    ghost use Rattle.lf_definitions.specs.Codes.{types_code};

    ghost Value = { List LfType };

    ghost coded = { types_code };

    ghost use Rattle.lf_terms.specs.Types.{kept_types};

    ghost view = { λ a. kept_types a.items };

    ghost use Rattle.lf_terms.specs.Extents.{Covers, InContext};

    ghost invariant = { λ a. Covers a.extent (InContext (kept_types a.items)) };

    ghost size = { types_size };

    ghost use Rattle.lf_terms.specs.TypeSizes.{types_fall};

    ghost size_decreases = { λ a h. types_fall a };
}

/// A kind: its binders.
#[derive(Drop)]
pub struct Kind {
    pub binders: Tys,
}

/// A family with arguments: a type with no binders.
#[derive(Drop)]
pub struct Atom {
    pub family: u32,
    pub args: Terms,
}

impl Ty {
    /// An equal type.
    pub fn copy(&self) -> Result<Ty, NoMemory>
        ensures { IfOk result (λ ty. type_of ty ≡ type_of self.now) }
    {
        let binders = self.binders.copy()?;
        let args = self.args.copy()?;
        Ok(Ty {
            binders,
            family: self.family,
            args,
        })
    }

    // What is kept of the heads that occur in it.
    pub(crate) fn extent(&self) -> Extent
        ensures { Covers result (InType (type_of self.now)) }
    {
        let args = self.args.extent().outside(self.binders.len());
        self.binders.extent().joined(args)
    }

    /// Whether no variable can occur that is outside so many binders, in one step.
    pub fn is_within(&self, depth: u32) -> bool
        ensures { IsTrue result → StaysWithin depth (InType (type_of self.now)) }
    {
        self.extent().is_within(depth)
    }

    /// Whether a metavariable may occur, in one step.
    pub fn has_metas(&self) -> bool
        ensures { result ≡ false → ExcludesMetavariables (InType (type_of self.now)) }
    {
        self.extent().has_metas()
    }
}

impl Kind {
    /// An equal kind.
    pub fn copy(&self) -> Result<Kind, NoMemory>
        ensures { IfOk result (λ kind. kind.binders ≡ self.now.binders) }
    {
        let binders = self.binders.copy()?;
        Ok(Kind { binders })
    }
}

impl Atom {
    /// An equal family with arguments.
    pub fn copy(&self) -> Result<Atom, NoMemory>
        ensures { IfOk result (λ atom. atom_of atom ≡ atom_of self.now) }
    {
        let args = self.args.copy()?;
        Ok(Atom {
            family: self.family,
            args,
        })
    }
}

impl Tys {
    /// No types. It takes no memory.
    pub fn new() -> Tys
        ensures { result ≡ [] }
    {
        Tys {
            items: None,
            extent: Extent::new(),
        }
    }

    /// The types of a vector.
    pub fn from_vec(alloc: Global, items: Vec<Ty>) -> Result<Tys, NoMemory>
        ensures { IfOk result (λ types. types ≡ types_of items.items) }
    {
        if items.is_empty() {
            return Ok(Tys::new());
        }
        let extent = extent_of(items.as_slice());
        let block = Arc::new(alloc, items)?;
        Ok(Tys {
            items: Some(block),
            extent,
        })
    }

    /// The types as a slice. It takes no memory.
    pub fn as_slice(&self) -> &[Ty]
        ensures { types_of result.now ≡ self.now }
    {
        match &self.items {
            None => &[],
            Some(block) => block.as_slice(),
        }
    }

    /// How many types there are. It takes no memory.
    #[tactic(auto, using(crate::proofs::TypeLists::lengths))]
    pub fn len(&self) -> usize
        ensures { result ≡ length self.now }
    {
        self.as_slice().len()
    }

    /// An equal list.
    pub fn copy(&self) -> Result<Tys, NoMemory>
        ensures { IfOk result (λ types. types ≡ self.now) }
    {
        match &self.items {
            None => Ok(Tys::new()),
            Some(block) => {
                let block = Arc::try_clone(block)?;
                Ok(Tys {
                    items: Some(block),
                    extent: self.extent,
                })
            }
        }
    }

    // What is kept of the heads that occur in them.
    pub(crate) fn extent(&self) -> Extent
        ensures { Covers result (InContext self.now) }
    {
        self.extent
    }

    /// Whether a metavariable may occur, in one step.
    pub fn has_metas(&self) -> bool
        ensures { result ≡ false → ExcludesMetavariables (InContext self.now) }
    {
        self.extent().has_metas()
    }
}

// What is kept of the heads that occur in types, each in the scope of those before it.
fn extent_of(types: &[Ty]) -> Extent
    ensures { Covers result (InContext (types_of types.now)) }
{
    let mut extent = Extent::new();
    for i in 0..types.len() {
        extent = extent.joined(types[i].extent().outside(i));
    }
    extent
}
