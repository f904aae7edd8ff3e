//! Lists of spans and of binders.

ghost use Rattle.std.specs.Prelude.{◌≡◌, ◌++◌, [], ◌∷◌, OnOk, OnErr, MatchOption, length};

use crate::span::{BinderSpan, Span};
use std::alloc::{AllocError, Global};
use std::marker::Model;

/// Spans in order. A contract sees the list of them.
#[derive(Drop)]
pub struct Spans {
    items: Vec<Span>,
}

impl Model for Spans {
    ghost use Rattle.std.specs.Prelude.{List};
    ghost use Rattle.file_trees.specs.declared.span.Span.{Span};

    ghost Value = { List Span };

    ghost view = { λ a. a.items.items };
}

impl Spans {
    /// None. It takes no memory.
    pub fn new(alloc: Global) -> Spans
        ensures { result ≡ [] }
    {
        Spans {
            items: Vec::new(alloc),
        }
    }

    /// How many there are.
    pub fn len(&self) -> usize
        ensures { result ≡ length self.now }
    {
        self.items.len()
    }

    /// The spans as a slice.
    pub fn as_slice(&self) -> &[Span]
        ensures { result.now ≡ self.now }
    {
        self.items.as_slice()
    }

    /// Adds a span at the end. The list is as it was where memory is refused.
    pub fn push(&mut self, span: Span) -> Result<(), AllocError>
        ensures ok { OnOk result (self.new ≡ self.old ++ span ∷ []) }
        ensures err { OnErr result (self.new ≡ self.old) }
    {
        self.items.push(span)?;
        Ok(())
    }

    /// Takes the span at the end.
    pub fn pop(&mut self) -> Option<Span>
        ensures { MatchOption result (self.old ≡ []) (λ span. self.old ≡ self.new ++ span ∷ []) }
    {
        self.items.pop()
    }
}

/// Binders in order. A contract sees the list of them.
#[derive(Drop)]
pub struct BinderSpans {
    items: Vec<BinderSpan>,
}

impl Model for BinderSpans {
    ghost use Rattle.std.specs.Prelude.{List};
    ghost use Rattle.file_trees.specs.declared.span.BinderSpan.{BinderSpan};

    ghost Value = { List BinderSpan };

    ghost view = { λ a. a.items.items };
}

impl BinderSpans {
    /// None. It takes no memory.
    pub fn new(alloc: Global) -> BinderSpans
        ensures { result ≡ [] }
    {
        BinderSpans {
            items: Vec::new(alloc),
        }
    }

    /// How many there are.
    pub fn len(&self) -> usize
        ensures { result ≡ length self.now }
    {
        self.items.len()
    }

    /// The binders as a slice.
    pub fn as_slice(&self) -> &[BinderSpan]
        ensures { result.now ≡ self.now }
    {
        self.items.as_slice()
    }

    /// Adds a binder at the end. The list is as it was where memory is refused.
    pub fn push(&mut self, binder: BinderSpan) -> Result<(), AllocError>
        ensures ok { OnOk result (self.new ≡ self.old ++ binder ∷ []) }
        ensures err { OnErr result (self.new ≡ self.old) }
    {
        self.items.push(binder)?;
        Ok(())
    }

    /// Takes the binder at the end.
    pub fn pop(&mut self) -> Option<BinderSpan>
        ensures { MatchOption result (self.old ≡ []) (λ binder. self.old ≡ self.new ++ binder ∷ []) }
    {
        self.items.pop()
    }
}
