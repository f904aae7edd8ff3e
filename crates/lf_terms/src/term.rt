//! Terms.

ghost use Rattle.std.specs.Prelude.{◌≡◌, IfOk, IsTrue, false};
ghost use Rattle.lf_definitions.specs.Syntax.{no_args, args_count};
ghost use Rattle.lf_terms.specs.Extents.{Covers, StaysWithin, ExcludesMetavariables, InTerm, InSpine};
ghost use Rattle.lf_terms.specs.Terms.{term_of, spine_of, kept_spine};

use crate::extent::Extent;
use crate::head::Head;
use basics::NoMemory;
use std::alloc::Global;
use std::marker::Model;
use std::sync::Arc;

/// A term in canonical form: an abstraction over the variable 0 of its body, or a head with its arguments.
/// Copies share what is below the first layer, so each costs one step.
#[cycle(term)]
#[derive(Drop)]
pub enum Term {
    Lam(Body),
    At(Head, Terms),
}

/// The body of an abstraction. A contract sees the term.
#[cycle(term)]
#[derive(Drop)]
pub struct Body {
    inner: Arc<Term>,
    extent: Extent,
}

impl Model for Body {
    ghost use Rattle.lf_definitions.specs.Syntax.{LfTerm, term_size};
    ghost use Rattle.lf_definitions.specs.Codes.{term_code};

    ghost Value = { LfTerm };

    ghost coded = { term_code };

    ghost use Rattle.lf_terms.specs.Terms.{term_of};

    ghost view = { λ a. term_of a.inner.value };

    ghost use Rattle.lf_terms.specs.Extents.{Covers, InTerm};

    ghost invariant = { λ a. Covers a.extent (InTerm (term_of a.inner.value)) };

    ghost size = { term_size };

    ghost use Rattle.lf_terms.specs.TermSizes.{body_falls};

    ghost size_decreases = { λ a h. body_falls a };
}

/// A list of terms. A contract sees it as a spine.
#[cycle(term)]
#[derive(Drop)]
pub struct Terms {
    items: Kept,
    extent: Extent,
}

// A list of one or two stands in the block that copies share: fewer steps to its terms, and one block less.
#[cycle(term)]
#[derive(Drop)]
enum Kept {
    Empty,
    One(Arc<[Term; 1]>),
    Two(Arc<[Term; 2]>),
    More(Arc<Vec<Term>>),
}

impl Model for Terms {
    ghost use Rattle.lf_definitions.specs.Syntax.{Spine, spine_size};
    ghost use Rattle.lf_definitions.specs.Codes.{spine_code};

    ghost Value = { Spine };

    ghost coded = { spine_code };

    ghost use Rattle.lf_terms.specs.Terms.{kept_spine};

    ghost view = { λ a. kept_spine a.items };

    ghost use Rattle.lf_terms.specs.Extents.{Covers, InSpine};

    ghost invariant = { λ a. Covers a.extent (InSpine (kept_spine a.items)) };

    ghost size = { spine_size };

    ghost use Rattle.lf_terms.specs.TermSizes.{terms_fall};

    ghost size_decreases = { λ a h. terms_fall a };
}

impl Term {
    // What is kept of the heads that occur in it.
    pub(crate) fn extent(&self) -> Extent
        ensures { Covers result (InTerm (term_of self.now)) }
    {
        match self {
            Term::Lam(body) => body.extent().outside(1),
            Term::At(head, args) => Extent::of_head(*head).joined(args.extent()),
        }
    }

    /// Whether a metavariable may occur, in one step.
    pub fn has_metas(&self) -> bool
        ensures { result ≡ false → ExcludesMetavariables (InTerm (term_of self.now)) }
    {
        self.extent().has_metas()
    }
}

impl Body {
    /// The body of an abstraction.
    pub fn new(alloc: Global, term: Term) -> Result<Body, NoMemory>
        ensures { IfOk result (λ body. body ≡ term_of term) }
    {
        let extent = term.extent();
        let inner = Arc::new(alloc, term)?;
        Ok(Body { inner, extent })
    }

    /// The term that the body is. It takes no memory.
    pub fn term(&self) -> &Term
        ensures { term_of result.now ≡ self.now }
    {
        &self.inner
    }

    /// An equal body.
    pub fn copy(&self) -> Result<Body, NoMemory>
        ensures { IfOk result (λ body. body ≡ self.now) }
    {
        let inner = Arc::try_clone(&self.inner)?;
        Ok(Body {
            inner,
            extent: self.extent,
        })
    }

    // What is kept of the heads that occur in it.
    pub(crate) fn extent(&self) -> Extent
        ensures { Covers result (InTerm self.now) }
    {
        self.extent
    }

    /// Whether no variable can occur that is outside so many binders, in one step.
    pub fn is_within(&self, depth: u32) -> bool
        ensures { IsTrue result → StaysWithin depth (InTerm self.now) }
    {
        self.extent().is_within(depth)
    }
}

impl Terms {
    /// No terms. It takes no memory.
    pub fn new() -> Terms
        ensures { result ≡ no_args }
    {
        Terms {
            items: Kept::Empty,
            extent: Extent::new(),
        }
    }

    /// The terms of a vector.
    pub fn from_vec(alloc: Global, items: Vec<Term>) -> Result<Terms, NoMemory>
        ensures { IfOk result (λ terms. terms ≡ spine_of items.items) }
    {
        let extent = extent_of(items.as_slice());
        let items = block_of(alloc, items)?;
        Ok(Terms { items, extent })
    }

    /// The terms as a slice. It takes no memory.
    pub fn as_slice(&self) -> &[Term]
        ensures { spine_of result.now ≡ self.now }
    {
        match &self.items {
            Kept::Empty => &[],
            Kept::One(block) => &block[..],
            Kept::Two(block) => &block[..],
            Kept::More(block) => block.as_slice(),
        }
    }

    /// How many terms there are. It takes no memory.
    pub fn len(&self) -> usize
        ensures { result ≡ args_count self.now }
    {
        self.as_slice().len()
    }

    /// An equal list.
    pub fn copy(&self) -> Result<Terms, NoMemory>
        ensures { IfOk result (λ terms. terms ≡ self.now) }
    {
        let items = copied(&self.items)?;
        Ok(Terms {
            items,
            extent: self.extent,
        })
    }

    // What is kept of the heads that occur in them.
    pub(crate) fn extent(&self) -> Extent
        ensures { Covers result (InSpine self.now) }
    {
        self.extent
    }

    /// Whether no variable can occur that is outside so many binders, in one step.
    pub fn is_within(&self, depth: u32) -> bool
        ensures { IsTrue result → StaysWithin depth (InSpine self.now) }
    {
        self.extent().is_within(depth)
    }

    /// Whether a metavariable may occur, in one step.
    pub fn has_metas(&self) -> bool
        ensures { result ≡ false → ExcludesMetavariables (InSpine self.now) }
    {
        self.extent().has_metas()
    }
}

// What is kept of the heads that occur in terms.
fn extent_of(terms: &[Term]) -> Extent
    ensures { Covers result (InSpine (spine_of terms.now)) }
{
    let mut extent = Extent::new();
    for term in terms {
        extent = extent.joined(term.extent());
    }
    extent
}

// The block of terms.
fn block_of(alloc: Global, mut items: Vec<Term>) -> Result<Kept, NoMemory>
    ensures { IfOk result (λ block. kept_spine block ≡ spine_of items.items) }
{
    if items.len() > 2 {
        return Ok(Kept::More(Arc::new(alloc, items)?));
    }
    let Some(last) = items.pop() else {
        return Ok(Kept::Empty);
    };
    let Some(first) = items.pop() else {
        return Ok(Kept::One(Arc::new(alloc, [last])?));
    };
    Ok(Kept::Two(Arc::new(alloc, [first, last])?))
}

// The same block.
fn copied(items: &Kept) -> Result<Kept, NoMemory>
    ensures { IfOk result (λ copy. kept_spine copy ≡ kept_spine items.now) }
{
    match items {
        Kept::Empty => Ok(Kept::Empty),
        Kept::One(block) => Ok(Kept::One(Arc::try_clone(block)?)),
        Kept::Two(block) => Ok(Kept::Two(Arc::try_clone(block)?)),
        Kept::More(block) => Ok(Kept::More(Arc::try_clone(block)?)),
    }
}

/// An equal term, in one step: what is below the first layer is shared.
pub fn copy(term: &Term) -> Result<Term, NoMemory>
    ensures { IfOk result (λ copy. term_of copy ≡ term_of term.now) }
{
    match term {
        Term::Lam(body) => Ok(Term::Lam(body.copy()?)),
        Term::At(head, args) => Ok(Term::At(*head, args.copy()?)),
    }
}
