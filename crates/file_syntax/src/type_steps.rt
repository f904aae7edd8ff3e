//! Steps within a type or a kind, outside its arguments.

ghost use Rattle.std.specs.Prelude.{◌≡◌, ◌++◌, ◌∷◌, [], IfOk, IsErrOf, None, Some};
ghost use Rattle.file_syntax.specs.Reading.{type_start, pi_name, pi_colon, typed, close_brace, past_arrow, close_type, group_end, close_kind, star_end};
ghost use Rattle.file_trees.specs.Trees.{bind, star};

use crate::rule_steps::ended;
use crate::state::{Frame, Owner, Purpose, State, StepFault, Top};
use crate::terminal::Terminal;
use file_trees::{Binder, BinderSpan, Binders, DeclTree, Span, TermTrees, TheoremTree, TypeTree};
use std::alloc::Global;

/// Before a part of a type.
pub(crate) fn type_start(
    alloc: Global,
    state: &mut State,
    binders: Binders,
    terminal: Terminal,
) -> Result<(), StepFault>
    ensures ok { IfOk result (λ _. type_start state.old.decls state.old.frames binders terminal ≡ Some state.new) }
    ensures refused { IsErrOf result StepFault.Refused → type_start state.old.decls state.old.frames binders terminal ≡ None }
{
    let top = match terminal {
        Terminal::TypeWord(span) => {
            if !state.frames.is_at_kind() {
                return Err(StepFault::Refused);
            }
            Top::StarEnd(binders, span)
        }
        Terminal::LBrace(span) => Top::PiName(binders, span),
        Terminal::LParen(_) => {
            state.frames.push(Frame::Group(binders))?;
            Top::TypeStart(Binders::new(alloc))
        }
        Terminal::Word(_, span) => {
            Top::Arguments(Owner::Family(binders, span), TermTrees::new(alloc))
        }
        _ => return Err(StepFault::Refused),
    };
    state.top = top;
    Ok(())
}

/// After the brace of a binder.
pub(crate) fn pi_name(
    state: &mut State,
    binders: Binders,
    brace: Span,
    terminal: Terminal,
) -> Result<(), StepFault>
    ensures ok { IfOk result (λ _. pi_name state.old.decls state.old.frames binders brace terminal ≡ Some state.new) }
    ensures refused { IsErrOf result StepFault.Refused → pi_name state.old.decls state.old.frames binders brace terminal ≡ None }
{
    match terminal {
        Terminal::Word(_, name) | Terminal::Var(name) => {
            let opening = brace.start;
            state.top = Top::PiColon(binders, BinderSpan { opening, name });
            Ok(())
        }
        _ => Err(StepFault::Refused),
    }
}

/// After the name of a binder.
pub(crate) fn pi_colon(
    alloc: Global,
    state: &mut State,
    binders: Binders,
    binder: BinderSpan,
    terminal: Terminal,
) -> Result<(), StepFault>
    ensures ok { IfOk result (λ _. pi_colon state.old.decls state.old.frames binders binder terminal ≡ Some state.new) }
    ensures refused { IsErrOf result StepFault.Refused → pi_colon state.old.decls state.old.frames binders binder terminal ≡ None }
{
    let Terminal::Colon(_) = terminal else {
        return Err(StepFault::Refused);
    };
    state.frames.push(Frame::Brace(binders, binder))?;
    state.top = Top::TypeStart(Binders::new(alloc));
    Ok(())
}

/// The declaration of a type. A family has a kind, and no type.
fn typed(goal: Purpose, name: Span, tree: TypeTree) -> Option<DeclTree>
    ensures { result ≡ typed goal name tree }
{
    match goal {
        Purpose::Family => None,
        Purpose::Const => Some(DeclTree::Const(name, tree)),
        Purpose::Theorem => Some(DeclTree::Theorem(TheoremTree {
            name,
            statement: tree,
        })),
    }
}

/// The type in a binder's braces ends.
fn close_brace(
    state: &mut State,
    mut binders: Binders,
    binder: BinderSpan,
    tree: TypeTree,
) -> Result<(), StepFault>
    ensures ok { IfOk result (λ _. close_brace state.old.decls state.old.frames binders binder tree ≡ Some state.new) }
    ensures refused { IsErrOf result StepFault.Refused → close_brace state.old.decls state.old.frames binders binder tree ≡ None }
{
    binders.push(Binder::Pi(binder, tree))?;
    state.top = Top::TypeStart(binders);
    Ok(())
}

/// A type ends at the terminal.
pub(crate) fn close_type(
    state: &mut State,
    tree: TypeTree,
    terminal: Terminal,
) -> Result<(), StepFault>
    ensures ok { IfOk result (λ _. close_type state.old.decls state.old.frames tree terminal ≡ Some state.new) }
    ensures refused { IsErrOf result StepFault.Refused → close_type state.old.decls state.old.frames tree terminal ≡ None }
{
    match (state.frames.pop(), terminal) {
        (Some(Frame::Declared(goal, name)), Terminal::Dot(_)) => {
            ended(state, typed(goal, name, tree))
        }
        (Some(Frame::Brace(binders, binder)), Terminal::RBrace(_)) => {
            close_brace(state, binders, binder, tree)
        }
        (Some(Frame::Group(binders)), Terminal::RParen(_)) => {
            state.top = Top::GroupEnd(binders, tree);
            Ok(())
        }
        _ => Err(StepFault::Refused),
    }
}

/// What stands to the left of an arrow is read.
pub(crate) fn past_arrow(
    state: &mut State,
    mut binders: Binders,
    left: TypeTree,
) -> Result<(), StepFault>
    ensures ok { IfOk result (λ _. past_arrow state.old.decls state.old.frames binders left ≡ Some state.new) }
    ensures refused { IsErrOf result StepFault.Refused → past_arrow state.old.decls state.old.frames binders left ≡ None }
{
    binders.push(Binder::Arrow(left))?;
    state.top = Top::TypeStart(binders);
    Ok(())
}

/// After a type in parentheses.
pub(crate) fn group_end(
    alloc: Global,
    state: &mut State,
    binders: Binders,
    inner: TypeTree,
    terminal: Terminal,
) -> Result<(), StepFault>
    ensures ok { IfOk result (λ _. group_end state.old.decls state.old.frames binders inner terminal ≡ Some state.new) }
    ensures refused { IsErrOf result StepFault.Refused → group_end state.old.decls state.old.frames binders inner terminal ≡ None }
{
    if let Terminal::Arrow(_) = terminal {
        return past_arrow(state, binders, inner);
    }
    let tree = TypeTree::group(alloc, binders, inner)?;
    close_type(state, tree, terminal)
}

/// A kind ends.
fn close_kind(state: &mut State, tree: TypeTree) -> Result<(), StepFault>
    ensures ok { IfOk result (λ _. close_kind state.old.decls state.old.frames tree ≡ Some state.new) }
    ensures refused { IsErrOf result StepFault.Refused → close_kind state.old.decls state.old.frames tree ≡ None }
{
    match state.frames.pop() {
        Some(Frame::Declared(Purpose::Family, name)) => {
            state.decls.push(DeclTree::Family(name, tree))?;
            state.top = Top::Between;
            Ok(())
        }
        _ => Err(StepFault::Refused),
    }
}

/// After the word `type`.
pub(crate) fn star_end(
    state: &mut State,
    binders: Binders,
    word: Span,
    terminal: Terminal,
) -> Result<(), StepFault>
    ensures ok { IfOk result (λ _. star_end state.old.decls state.old.frames binders word terminal ≡ Some state.new) }
    ensures refused { IsErrOf result StepFault.Refused → star_end state.old.decls state.old.frames binders word terminal ≡ None }
{
    match terminal {
        Terminal::Dot(_) => close_kind(state, TypeTree::kind(binders, word)),
        _ => Err(StepFault::Refused),
    }
}
