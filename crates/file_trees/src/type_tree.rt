//! Types and kinds as they are written.

ghost use Rattle.std.specs.Prelude.{◌≡◌, ◌++◌, [], ◌∷◌, IfOk, OnOk, OnErr};
ghost use Rattle.file_trees.specs.Trees.{bind, family, star};
ghost use Rattle.file_trees.specs.TypeViews.{binding_of, bindings_of, has_no_part, last_of, IsLast};

use crate::span::{BinderSpan, Span};
use crate::term_tree::TermTrees;
use std::alloc::{AllocError, Global};
use std::marker::Model;

/// A type or a kind: what stands before its last part, in order, and that part. A contract sees
/// it with one binder or arrow round the next, however many there are.
#[cycle(classifier)]
#[derive(Drop)]
pub struct TypeTree {
    binders: Binders,
    last: Last,
}

/// What stands before the last part of a type: a binder in braces with its type, or the left
/// side of an arrow.
#[cycle(classifier)]
#[derive(Drop)]
pub enum Binder {
    Pi(BinderSpan, TypeTree),
    Arrow(TypeTree),
}

/// Such parts in order. A contract sees the list of them.
#[cycle(classifier)]
#[derive(Drop)]
pub struct Binders {
    items: Vec<Binder>,
}

/// The last part of a type: a family applied to terms, the word `type`, or a type in parentheses,
/// which goes on with the same type.
#[cycle(classifier)]
#[derive(Drop)]
pub enum Last {
    Fam(Span, TermTrees),
    Star(Span),
    Group(Box<TypeTree>),
}

impl Model for TypeTree {
    ghost use Rattle.file_trees.specs.Trees.{Classifier, classifier_size};
    ghost use Rattle.file_trees.specs.TreeCodes.{classifier_code};

    ghost Value = { Classifier };

    ghost coded = { classifier_code };

    ghost use Rattle.file_trees.specs.Trees.{bind};
    ghost use Rattle.file_trees.specs.TypeViews.{last_of, IsLast};

    ghost view = { λ a. bind a.binders (last_of a.last) };

    ghost invariant = { λ a. IsLast a.last a.binders };

    ghost size = { classifier_size };

    ghost use Rattle.file_trees.specs.TypeSizes.{type_falls};

    ghost size_decreases = { λ a h. type_falls a h };
}

impl Model for Binders {
    ghost use Rattle.std.specs.Prelude.{List};
    ghost use Rattle.std.specs.Coded.{coded_list};
    ghost use Rattle.file_trees.specs.Trees.{Binding, bindings_size};
    ghost use Rattle.file_trees.specs.TreeCodes.{binding_code};

    ghost Value = { List Binding };

    ghost coded = { coded_list binding_code };

    ghost use Rattle.file_trees.specs.TypeViews.{bindings_of};

    ghost view = { λ a. bindings_of a.items.items };

    ghost size = { bindings_size };

    ghost use Rattle.file_trees.specs.TypeSizes.{binders_fall};

    ghost size_decreases = { λ a h. binders_fall a };
}

impl Binders {
    /// None. It takes no memory.
    pub fn new(alloc: Global) -> Binders
        ensures { result ≡ [] }
    {
        Binders {
            items: Vec::new(alloc),
        }
    }

    /// Whether there is none.
    pub fn is_empty(&self) -> bool
        ensures { result ≡ has_no_part self.now }
    {
        match self.items.first() {
            Some(_) => false,
            None => true,
        }
    }

    /// The parts as a slice.
    pub fn as_slice(&self) -> &[Binder]
        ensures { bindings_of result.now ≡ self.now }
    {
        self.items.as_slice()
    }

    /// Gives back the memory that further parts would have had.
    pub fn shrink(&mut self)
        ensures { self.new ≡ self.old }
    {
        self.items.shrink_to_fit();
    }

    /// Adds a part at the end. The list is as it was where memory is refused.
    #[tactic(auto, using(crate::proofs::TreeLists::bindings_of_append))]
    pub fn push(&mut self, binder: Binder) -> Result<(), AllocError>
        ensures ok { OnOk result (self.new ≡ self.old ++ binding_of binder ∷ []) }
        ensures err { OnErr result (self.new ≡ self.old) }
    {
        self.items.push(binder)?;
        Ok(())
    }
}

impl TypeTree {
    /// A type that ends in a family applied to terms. It takes no memory.
    pub fn family(mut binders: Binders, head: Span, mut arguments: TermTrees) -> TypeTree
        ensures { result ≡ bind binders (family head arguments) }
    {
        binders.shrink();
        arguments.shrink();
        TypeTree {
            binders,
            last: Last::Fam(head, arguments),
        }
    }

    /// A kind. It takes no memory.
    pub fn kind(mut binders: Binders, word: Span) -> TypeTree
        ensures { result ≡ bind binders (star word) }
    {
        binders.shrink();
        TypeTree {
            binders,
            last: Last::Star(word),
        }
    }

    /// A type that ends in a type in parentheses.
    pub fn group(
        alloc: Global,
        mut binders: Binders,
        inner: TypeTree,
    ) -> Result<TypeTree, AllocError>
        ensures { IfOk result (λ tree. tree ≡ bind binders inner) }
    {
        if binders.is_empty() {
            return Ok(inner);
        }
        let inner = Box::new(alloc, inner)?;
        binders.shrink();
        Ok(TypeTree {
            binders,
            last: Last::Group(inner),
        })
    }

    /// What stands before the last part, and the last part. It takes no memory.
    pub fn parts(&self) -> (&Binders, &Last)
        ensures whole { bind result.0.now (last_of result.1.now) ≡ self.now }
        ensures last { IsLast result.1.now result.0.now }
    {
        (&self.binders, &self.last)
    }

    /// The same, taken apart. It takes no memory.
    pub fn into_parts(self) -> (Binders, Last)
        ensures whole { bind result.0 (last_of result.1) ≡ self }
        ensures last { IsLast result.1 result.0 }
    {
        let TypeTree { binders, last } = self;
        (binders, last)
    }
}
