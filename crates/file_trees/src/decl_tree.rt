//! Declarations as they are written.

ghost use Rattle.std.specs.Prelude.{◌≡◌, ◌++◌, [], ◌∷◌, OnOk, OnErr, length};

use crate::span::Span;
use crate::spans::Spans;
use crate::type_tree::TypeTree;
use std::alloc::{AllocError, Global};
use std::marker::Model;

/// When a rule is tried.
#[derive(Clone, Copy, Debug, PartialEq, Eq)]
pub enum PhaseWord {
    Norm,
    Safe,
    Unsafe,
}

/// How a rule is made.
#[derive(Clone, Copy, Debug, PartialEq, Eq)]
pub enum BuildWord {
    Apply,
    Constructors,
    Cases,
    Forward,
    Destruct,
}

/// A theorem: its name and the type that it states.
#[derive(Drop)]
pub struct TheoremTree {
    pub name: Span,
    pub statement: TypeTree,
}

/// A rule: its name, when it is tried, its number, how it is made, the name of what it is made of,
/// the number after `at`, and the name after `in`.
#[derive(Clone, Copy, Debug, PartialEq, Eq)]
pub struct RuleTree {
    pub name: Span,
    pub phase: PhaseWord,
    pub number: Span,
    pub builder: BuildWord,
    pub subject: Span,
    pub major: Option<Span>,
    pub set: Option<Span>,
}

/// A declaration by the spans of its parts: a family or a constant with its name and its kind or
/// type; a theorem; a rule; the constants of a family, as a `data` declaration lists them.
#[derive(Drop)]
pub enum DeclTree {
    Family(Span, TypeTree),
    Const(Span, TypeTree),
    Theorem(TheoremTree),
    Rule(RuleTree),
    Ctors(Span, Spans),
}

/// Declarations in order. A contract sees the list of them.
#[derive(Drop)]
pub struct DeclTrees {
    items: Vec<DeclTree>,
}

/// A file: its declarations in order.
#[derive(Drop)]
pub struct FileTree {
    pub decls: DeclTrees,
}

impl Model for DeclTrees {
    ghost use Rattle.std.specs.Prelude.{List};
    ghost use Rattle.std.specs.Coded.{coded_list};
    ghost use Rattle.file_trees.specs.declared.decl_tree.DeclTree.{DeclTree};
    ghost use Rattle.file_trees.specs.contracts.decl_tree.DeclTree as declaration;

    ghost Value = { List DeclTree };

    ghost coded = { coded_list declaration.the_row.coded };

    ghost view = { λ a. a.items.items };
}

impl DeclTrees {
    /// None. It takes no memory.
    pub fn new(alloc: Global) -> DeclTrees
        ensures { result ≡ [] }
    {
        DeclTrees {
            items: Vec::new(alloc),
        }
    }

    /// How many there are.
    pub fn len(&self) -> usize
        ensures { result ≡ length self.now }
    {
        self.items.len()
    }

    /// The declarations as a slice.
    pub fn as_slice(&self) -> &[DeclTree]
        ensures { result.now ≡ self.now }
    {
        self.items.as_slice()
    }

    /// Adds a declaration at the end. The list is as it was where memory is refused.
    pub fn push(&mut self, declaration: DeclTree) -> Result<(), AllocError>
        ensures ok { OnOk result (self.new ≡ self.old ++ declaration ∷ []) }
        ensures err { OnErr result (self.new ≡ self.old) }
    {
        self.items.push(declaration)?;
        Ok(())
    }
}
