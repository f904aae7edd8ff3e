//! Terms as they are written.

ghost use Rattle.std.specs.Prelude.{◌≡◌, ◌++◌, [], ◌∷◌, IfOk, OnOk, OnErr, MatchOption, length};
ghost use Rattle.file_trees.specs.TermViews.{tree_of, trees_of, has_none};

use crate::span::{BinderSpan, Span};
use std::alloc::{AllocError, Global};
use std::marker::Model;

/// A term: an abstraction with its binder and its body, an application of a head to
/// arguments, or a name or a variable.
#[cycle(term)]
#[derive(Drop)]
pub enum TermTree {
    Abs(BinderSpan, Part),
    App(Part, TermTrees),
    Leaf(Span),
}

/// A term that is part of another. A contract sees the term.
#[cycle(term)]
#[derive(Drop)]
pub struct Part {
    inner: Box<TermTree>,
}

impl Model for Part {
    ghost use Rattle.file_trees.specs.Trees.{Tree, tree_size};
    ghost use Rattle.file_trees.specs.TreeCodes.{tree_code};

    ghost Value = { Tree };

    ghost coded = { tree_code };

    ghost use Rattle.file_trees.specs.TermViews.{tree_of};

    ghost view = { λ a. tree_of a.inner.value };

    ghost size = { tree_size };

    ghost use Rattle.file_trees.specs.TermSizes.{part_falls};

    ghost size_decreases = { λ a h. part_falls a };
}

/// Terms in order. A contract sees the list of them.
#[cycle(term)]
#[derive(Drop)]
pub struct TermTrees {
    items: Vec<TermTree>,
}

impl Model for TermTrees {
    ghost use Rattle.std.specs.Prelude.{List};
    ghost use Rattle.std.specs.Coded.{coded_list};
    ghost use Rattle.file_trees.specs.Trees.{Tree, trees_size};
    ghost use Rattle.file_trees.specs.TreeCodes.{tree_code};

    ghost Value = { List Tree };

    ghost coded = { coded_list tree_code };

    ghost use Rattle.file_trees.specs.TermViews.{trees_of};

    ghost view = { λ a. trees_of a.items.items };

    ghost size = { trees_size };

    ghost use Rattle.file_trees.specs.TermSizes.{trees_fall};

    ghost size_decreases = { λ a h. trees_fall a };
}

impl Part {
    /// The term as a part.
    pub fn new(alloc: Global, term: TermTree) -> Result<Part, AllocError>
        ensures { IfOk result (λ part. part ≡ tree_of term) }
    {
        let inner = Box::new(alloc, term)?;
        Ok(Part { inner })
    }

    /// The term that the part is. It takes no memory.
    pub fn term(&self) -> &TermTree
        ensures { tree_of result.now ≡ self.now }
    {
        &self.inner
    }
}

impl TermTrees {
    /// None. It takes no memory.
    pub fn new(alloc: Global) -> TermTrees
        ensures { result ≡ [] }
    {
        TermTrees {
            items: Vec::new(alloc),
        }
    }

    /// How many there are.
    #[tactic(auto, using(crate::proofs::TreeLists::length_trees_of))]
    pub fn len(&self) -> usize
        ensures { result ≡ length self.now }
    {
        self.items.len()
    }

    /// Whether there is none.
    pub fn is_empty(&self) -> bool
        ensures { result ≡ has_none self.now }
    {
        match self.items.first() {
            Some(_) => false,
            None => true,
        }
    }

    /// The terms as a slice.
    pub fn as_slice(&self) -> &[TermTree]
        ensures { trees_of result.now ≡ self.now }
    {
        self.items.as_slice()
    }

    /// Adds a term at the end. The list is as it was where memory is refused.
    #[tactic(auto, using(crate::proofs::TreeLists::trees_of_append))]
    pub fn push(&mut self, term: TermTree) -> Result<(), AllocError>
        ensures ok { OnOk result (self.new ≡ self.old ++ tree_of term ∷ []) }
        ensures err { OnErr result (self.new ≡ self.old) }
    {
        self.items.push(term)?;
        Ok(())
    }

    /// Gives back the memory that further terms would have had.
    pub fn shrink(&mut self)
        ensures { self.new ≡ self.old }
    {
        self.items.shrink_to_fit();
    }

    /// The first term, and the others, in no more memory than they need.
    pub fn split(mut self) -> Option<(TermTree, TermTrees)>
        ensures { MatchOption result (self ≡ []) (λ parts. self ≡ tree_of parts.0 ∷ parts.1) }
    {
        if self.items.is_empty() {
            return None;
        }
        let first = self.items.remove(0);
        self.items.shrink_to_fit();
        Some((first, self))
    }
}
