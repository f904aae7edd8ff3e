//! Steps within terms and among arguments.

ghost use Rattle.std.specs.Prelude.{◌≡◌, ◌++◌, ◌∷◌, [], IfOk, IsErrOf, None, Some};
ghost use Rattle.file_syntax.specs.Reading.{more_arguments, abstracted, close_term, family_arguments, term_arguments, no_argument, among_arguments, abs_name, abs_close};
ghost use Rattle.file_trees.specs.Trees.{applied};
ghost use Rattle.file_trees.specs.TermViews.{tree_of};

use crate::state::{Frame, Owner, State, StepFault, Top};
use crate::terminal::Terminal;
use crate::type_steps::{close_type, past_arrow};
use file_trees::{BinderSpan, BinderSpans, Binders, Part, Span, TermTree, TermTrees, TypeTree};
use std::alloc::{AllocError, Global};

/// One more argument is read.
fn more_arguments(
    state: &mut State,
    owner: Owner,
    mut arguments: TermTrees,
    argument: TermTree,
) -> Result<(), StepFault>
    ensures ok { IfOk result (λ _. more_arguments state.old.decls state.old.frames owner arguments (tree_of argument) ≡ Some state.new) }
    ensures refused { IsErrOf result StepFault.Refused → more_arguments state.old.decls state.old.frames owner arguments (tree_of argument) ≡ None }
{
    arguments.push(argument)?;
    state.top = Top::Arguments(owner, arguments);
    Ok(())
}

/// The head applied to the arguments, or the head alone where there are none.
fn applied(alloc: Global, head: TermTree, arguments: TermTrees) -> Result<TermTree, AllocError>
    ensures { IfOk result (λ term. tree_of term ≡ applied (tree_of head) arguments) }
{
    if arguments.is_empty() {
        return Ok(head);
    }
    let head = Part::new(alloc, head)?;
    Ok(TermTree::App(head, arguments))
}

/// The term under its abstractions.
#[tactic(auto, using(crate::proofs::Abstractions::abstracted_append))]
fn abstracted(
    alloc: Global,
    mut binders: BinderSpans,
    term: TermTree,
) -> Result<TermTree, AllocError>
    ensures { IfOk result (λ whole. tree_of whole ≡ abstracted binders (tree_of term)) }
{
    let mut whole = term;
    while let Some(binder) = binders.pop() {
        let body = Part::new(alloc, whole)?;
        whole = TermTree::Abs(binder, body);
    }
    Ok(whole)
}

/// A term in parentheses ends.
fn close_term(state: &mut State, term: TermTree) -> Result<(), StepFault>
    ensures ok { IfOk result (λ _. close_term state.old.decls state.old.frames (tree_of term) ≡ Some state.new) }
    ensures refused { IsErrOf result StepFault.Refused → close_term state.old.decls state.old.frames (tree_of term) ≡ None }
{
    match state.frames.pop() {
        Some(Frame::Argument(owner, arguments)) => { more_arguments(state, owner, arguments, term) }
        _ => Err(StepFault::Refused),
    }
}

/// After a family and some arguments, at a terminal that begins no argument.
fn family_arguments(
    alloc: Global,
    state: &mut State,
    binders: Binders,
    head: Span,
    arguments: TermTrees,
    terminal: Terminal,
) -> Result<(), StepFault>
    ensures ok { IfOk result (λ _. family_arguments state.old.decls state.old.frames binders head arguments terminal ≡ Some state.new) }
    ensures refused { IsErrOf result StepFault.Refused → family_arguments state.old.decls state.old.frames binders head arguments terminal ≡ None }
{
    if let Terminal::Arrow(_) = terminal {
        let left = TypeTree::family(Binders::new(alloc), head, arguments);
        return past_arrow(state, binders, left);
    }
    let tree = TypeTree::family(binders, head, arguments);
    close_type(state, tree, terminal)
}

/// After a head and some arguments, or before a head, at a terminal that begins no argument.
fn term_arguments(
    alloc: Global,
    state: &mut State,
    binders: BinderSpans,
    arguments: TermTrees,
    terminal: Terminal,
) -> Result<(), StepFault>
    ensures ok { IfOk result (λ _. term_arguments state.old.decls state.old.frames binders arguments terminal ≡ Some state.new) }
    ensures refused { IsErrOf result StepFault.Refused → term_arguments state.old.decls state.old.frames binders arguments terminal ≡ None }
{
    match (arguments.split(), terminal) {
        (None, Terminal::LBracket(bracket)) => {
            state.top = Top::AbsName(binders, bracket);
            Ok(())
        }
        (Some((head, rest)), Terminal::RParen(_)) => {
            let term = applied(alloc, head, rest)?;
            let whole = abstracted(alloc, binders, term)?;
            close_term(state, whole)
        }
        _ => Err(StepFault::Refused),
    }
}

/// Among arguments, at a terminal that begins none.
fn no_argument(
    alloc: Global,
    state: &mut State,
    owner: Owner,
    arguments: TermTrees,
    terminal: Terminal,
) -> Result<(), StepFault>
    ensures ok { IfOk result (λ _. no_argument state.old.decls state.old.frames owner arguments terminal ≡ Some state.new) }
    ensures refused { IsErrOf result StepFault.Refused → no_argument state.old.decls state.old.frames owner arguments terminal ≡ None }
{
    match owner {
        Owner::Family(binders, head) => {
            family_arguments(alloc, state, binders, head, arguments, terminal)
        }
        Owner::Term(binders) => term_arguments(alloc, state, binders, arguments, terminal),
    }
}

/// Among arguments.
pub(crate) fn among_arguments(
    alloc: Global,
    state: &mut State,
    owner: Owner,
    arguments: TermTrees,
    terminal: Terminal,
) -> Result<(), StepFault>
    ensures ok { IfOk result (λ _. among_arguments state.old.decls state.old.frames owner arguments terminal ≡ Some state.new) }
    ensures refused { IsErrOf result StepFault.Refused → among_arguments state.old.decls state.old.frames owner arguments terminal ≡ None }
{
    match terminal {
        Terminal::Word(_, span) => { more_arguments(state, owner, arguments, TermTree::Leaf(span)) }
        Terminal::Var(span) => more_arguments(state, owner, arguments, TermTree::Leaf(span)),
        Terminal::LParen(_) => {
            state.frames.push(Frame::Argument(owner, arguments))?;
            state.top = Top::Arguments(Owner::Term(BinderSpans::new(alloc)), TermTrees::new(alloc));
            Ok(())
        }
        _ => no_argument(alloc, state, owner, arguments, terminal),
    }
}

/// After the bracket of an abstraction.
pub(crate) fn abs_name(
    state: &mut State,
    binders: BinderSpans,
    bracket: Span,
    terminal: Terminal,
) -> Result<(), StepFault>
    ensures ok { IfOk result (λ _. abs_name state.old.decls state.old.frames binders bracket terminal ≡ Some state.new) }
    ensures refused { IsErrOf result StepFault.Refused → abs_name state.old.decls state.old.frames binders bracket terminal ≡ None }
{
    match terminal {
        Terminal::Word(_, name) | Terminal::Var(name) => {
            let opening = bracket.start;
            state.top = Top::AbsClose(binders, BinderSpan { opening, name });
            Ok(())
        }
        _ => Err(StepFault::Refused),
    }
}

/// After the name of an abstraction.
pub(crate) fn abs_close(
    alloc: Global,
    state: &mut State,
    mut binders: BinderSpans,
    binder: BinderSpan,
    terminal: Terminal,
) -> Result<(), StepFault>
    ensures ok { IfOk result (λ _. abs_close state.old.decls state.old.frames binders binder terminal ≡ Some state.new) }
    ensures refused { IsErrOf result StepFault.Refused → abs_close state.old.decls state.old.frames binders binder terminal ≡ None }
{
    let Terminal::RBracket(_) = terminal else {
        return Err(StepFault::Refused);
    };
    binders.push(binder)?;
    state.top = Top::Arguments(Owner::Term(binders), TermTrees::new(alloc));
    Ok(())
}
