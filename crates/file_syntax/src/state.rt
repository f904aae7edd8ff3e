//! How far the tokens read so far have come in a file.

ghost use Rattle.std.specs.Prelude.{◌≡◌, [], ◌∷◌, OnOk, OnErr, MatchOption};
ghost use Rattle.file_syntax.specs.Reading.{stands_at_kind};

use file_trees::{
    BinderSpan, BinderSpans, Binders, BuildWord, DeclTrees, PhaseWord, Span, Spans, TermTrees,
    TypeTree,
};
use std::alloc::{AllocError, Global};
use std::marker::Model;

/// What a declaration with a colon and a type or a kind declares.
#[derive(Clone, Copy)]
pub(crate) enum Purpose {
    Family,
    Const,
    Theorem,
}

/// The parts of a rule up to its subject.
#[derive(Clone, Copy)]
pub(crate) struct RuleHead {
    pub(crate) name: Span,
    pub(crate) phase: PhaseWord,
    pub(crate) number: Span,
    pub(crate) builder: BuildWord,
    pub(crate) subject: Span,
}

/// How far a rule has come, with its parts so far: what is to come next, or what came last.
#[derive(Clone, Copy)]
pub(crate) enum RulePart {
    ToName,
    ToColon(Span),
    ToPhase(Span),
    ToNumber(Span, PhaseWord),
    ToBuilder(Span, PhaseWord, Span),
    ToSubject(Span, PhaseWord, Span, BuildWord),
    PastSubject(RuleHead),
    ToMajor(RuleHead),
    PastMajor(RuleHead, Span),
    ToSet(RuleHead, Option<Span>),
    PastSet(RuleHead, Option<Span>, Span),
}

/// What takes arguments: a family, after what stands before it in its type, or the head of a term,
/// the first of them, under abstractions.
#[derive(Drop)]
pub(crate) enum Owner {
    Family(Binders, Span),
    Term(BinderSpans),
}

/// What is being read.
#[derive(Drop)]
pub(crate) enum Top {
    /// Between two declarations.
    Between,
    /// Before the name of a family, a constant or a theorem, and before its colon.
    GoalName(Purpose),
    GoalColon(Purpose, Span),
    /// Before the name of a `data` declaration, before its equals terminal, and among its names.
    DataName,
    DataEquals(Span),
    DataNames(Span, Spans),
    /// In a rule.
    InRule(RulePart),
    /// Before a part of a type, after those before it.
    TypeStart(Binders),
    /// After the brace of a binder, and after its name.
    PiName(Binders, Span),
    PiColon(Binders, BinderSpan),
    /// After a type in parentheses, and after the word `type`.
    GroupEnd(Binders, TypeTree),
    StarEnd(Binders, Span),
    /// Among arguments.
    Arguments(Owner, TermTrees),
    /// After the bracket of an abstraction, and after its name.
    AbsName(BinderSpans, Span),
    AbsClose(BinderSpans, BinderSpan),
}

/// What is open: a declaration up to its end, a binder up to its closing brace, a type or an
/// argument up to its closing parenthesis.
#[derive(Drop)]
pub(crate) enum Frame {
    Declared(Purpose, Span),
    Brace(Binders, BinderSpan),
    Group(Binders),
    Argument(Owner, TermTrees),
}

/// What is open. A contract sees the list of it, the innermost first.
#[derive(Drop)]
pub(crate) struct Frames {
    items: Vec<Frame>,
}

impl Model for Frames {
    ghost use Rattle.std.specs.Prelude.{List, reverse};
    ghost use Rattle.std.specs.Coded.{coded_list};
    ghost use Rattle.file_syntax.specs.declared.state.Frame.{Frame};
    ghost use Rattle.file_syntax.specs.contracts.state.Frame as frame;

    ghost Value = { List Frame };

    ghost coded = { coded_list frame.the_row.coded };

    ghost view = { λ a. reverse a.items.items };
}

/// The declarations before, what is open, and what is being read.
#[derive(Drop)]
pub(crate) struct State {
    pub(crate) decls: DeclTrees,
    pub(crate) frames: Frames,
    pub(crate) top: Top,
}

/// Why a token is not read.
#[derive(Clone, Copy)]
pub(crate) enum StepFault {
    /// No file has it here.
    Refused,
    /// Memory ran out.
    NoMemory,
}

impl From<AllocError> for StepFault {
    ghost use Rattle.file_syntax.specs.declared.state.StepFault.TheVariants as stops;
    ghost use Rattle.std.specs.Prelude.{◌≡◌};

    ghost from_gives = { λ _ stop. stop ≡ stops.NoMemory };

    fn from(_refusal: AllocError) -> StepFault {
        StepFault::NoMemory
    }
}

impl Frames {
    /// Nothing open. It takes no memory.
    pub(crate) fn new(alloc: Global) -> Frames
        ensures { result ≡ [] }
    {
        Frames {
            items: Vec::new(alloc),
        }
    }

    /// Opens one more. What is open is as it was where memory is refused.
    pub(crate) fn push(&mut self, frame: Frame) -> Result<(), AllocError>
        ensures ok { OnOk result (self.new ≡ frame ∷ self.old) }
        ensures err { OnErr result (self.new ≡ self.old) }
    {
        self.items.push(frame)?;
        Ok(())
    }

    /// Takes the innermost.
    pub(crate) fn pop(&mut self) -> Option<Frame>
        ensures { MatchOption result (self.old ≡ []) (λ frame. self.old ≡ frame ∷ self.new) }
    {
        self.items.pop()
    }

    /// Whether what is being read is the end of a kind, if it is the last part of a type.
    pub(crate) fn is_at_kind(&self) -> bool
        ensures { result ≡ stands_at_kind self.now }
    {
        match self.items.last() {
            Some(Frame::Declared(Purpose::Family, _)) => true,
            Some(_) => false,
            None => false,
        }
    }
}
