//! One step of reading a file: what each terminal does to what was read before it.

ghost use Rattle.std.specs.Prelude.{◌≡◌, ◌++◌, ◌∷◌, [], IfOk, IsErrOf, None, Some};
ghost use Rattle.file_syntax.specs.Reading.{begun, between, goal_name, goal_colon, data_name, data_equals, data_names, step};

use crate::rule_steps::in_rule;
use crate::state::{Frame, Purpose, RulePart, State, StepFault, Top};
use crate::term_steps::{abs_close, abs_name, among_arguments};
use crate::terminal::{Keyword, Terminal};
use crate::type_steps::{group_end, pi_colon, pi_name, star_end, type_start};
use file_trees::{Binders, DeclTree, Span, Spans};
use std::alloc::Global;
use std::mem;

/// What the first word of a declaration begins.
fn begun(word: Keyword) -> Option<Top>
    ensures { result ≡ begun word }
{
    match word {
        Keyword::Family => Some(Top::GoalName(Purpose::Family)),
        Keyword::Const => Some(Top::GoalName(Purpose::Const)),
        Keyword::Theorem => Some(Top::GoalName(Purpose::Theorem)),
        Keyword::Data => Some(Top::DataName),
        Keyword::Rule => Some(Top::InRule(RulePart::ToName)),
        _ => None,
    }
}

fn between(state: &mut State, terminal: Terminal) -> Result<(), StepFault>
    ensures ok { IfOk result (λ _. between state.old.decls state.old.frames terminal ≡ Some state.new) }
    ensures refused { IsErrOf result StepFault.Refused → between state.old.decls state.old.frames terminal ≡ None }
{
    let Terminal::Word(word, _) = terminal else {
        return Err(StepFault::Refused);
    };
    match begun(word) {
        Some(top) => {
            state.top = top;
            Ok(())
        }
        None => Err(StepFault::Refused),
    }
}

fn goal_name(state: &mut State, goal: Purpose, terminal: Terminal) -> Result<(), StepFault>
    ensures ok { IfOk result (λ _. goal_name state.old.decls state.old.frames goal terminal ≡ Some state.new) }
    ensures refused { IsErrOf result StepFault.Refused → goal_name state.old.decls state.old.frames goal terminal ≡ None }
{
    match terminal {
        Terminal::Word(_, name) => {
            state.top = Top::GoalColon(goal, name);
            Ok(())
        }
        _ => Err(StepFault::Refused),
    }
}

fn goal_colon(
    alloc: Global,
    state: &mut State,
    goal: Purpose,
    name: Span,
    terminal: Terminal,
) -> Result<(), StepFault>
    ensures ok { IfOk result (λ _. goal_colon state.old.decls state.old.frames goal name terminal ≡ Some state.new) }
    ensures refused { IsErrOf result StepFault.Refused → goal_colon state.old.decls state.old.frames goal name terminal ≡ None }
{
    match terminal {
        Terminal::Colon(_) => {
            state.frames.push(Frame::Declared(goal, name))?;
            state.top = Top::TypeStart(Binders::new(alloc));
            Ok(())
        }
        _ => Err(StepFault::Refused),
    }
}

fn data_name(state: &mut State, terminal: Terminal) -> Result<(), StepFault>
    ensures ok { IfOk result (λ _. data_name state.old.decls state.old.frames terminal ≡ Some state.new) }
    ensures refused { IsErrOf result StepFault.Refused → data_name state.old.decls state.old.frames terminal ≡ None }
{
    match terminal {
        Terminal::Word(_, name) => {
            state.top = Top::DataEquals(name);
            Ok(())
        }
        _ => Err(StepFault::Refused),
    }
}

fn data_equals(
    alloc: Global,
    state: &mut State,
    name: Span,
    terminal: Terminal,
) -> Result<(), StepFault>
    ensures ok { IfOk result (λ _. data_equals state.old.decls state.old.frames name terminal ≡ Some state.new) }
    ensures refused { IsErrOf result StepFault.Refused → data_equals state.old.decls state.old.frames name terminal ≡ None }
{
    match terminal {
        Terminal::Equals(_) => {
            state.top = Top::DataNames(name, Spans::new(alloc));
            Ok(())
        }
        _ => Err(StepFault::Refused),
    }
}

fn data_names(
    state: &mut State,
    name: Span,
    mut names: Spans,
    terminal: Terminal,
) -> Result<(), StepFault>
    ensures ok { IfOk result (λ _. data_names state.old.decls state.old.frames name names terminal ≡ Some state.new) }
    ensures refused { IsErrOf result StepFault.Refused → data_names state.old.decls state.old.frames name names terminal ≡ None }
{
    let top = match terminal {
        Terminal::Word(_, span) => {
            names.push(span)?;
            Top::DataNames(name, names)
        }
        Terminal::Dot(_) => {
            state.decls.push(DeclTree::Ctors(name, names))?;
            Top::Between
        }
        _ => return Err(StepFault::Refused),
    };
    state.top = top;
    Ok(())
}

/// The state after the terminal. `Refused` comes exactly where it has no place.
pub(crate) fn step(alloc: Global, state: &mut State, terminal: Terminal) -> Result<(), StepFault>
    ensures ok { IfOk result (λ _. step state.old terminal ≡ Some state.new) }
    ensures refused { IsErrOf result StepFault.Refused → step state.old terminal ≡ None }
{
    match mem::replace(&mut state.top, Top::Between) {
        Top::Between => between(state, terminal),
        Top::GoalName(goal) => goal_name(state, goal, terminal),
        Top::GoalColon(goal, name) => goal_colon(alloc, state, goal, name, terminal),
        Top::DataName => data_name(state, terminal),
        Top::DataEquals(name) => data_equals(alloc, state, name, terminal),
        Top::DataNames(name, names) => data_names(state, name, names, terminal),
        Top::InRule(part) => in_rule(state, part, terminal),
        Top::TypeStart(binders) => type_start(alloc, state, binders, terminal),
        Top::PiName(binders, brace) => pi_name(state, binders, brace, terminal),
        Top::PiColon(binders, brace) => pi_colon(alloc, state, binders, brace, terminal),
        Top::GroupEnd(binders, inner) => group_end(alloc, state, binders, inner, terminal),
        Top::StarEnd(binders, word) => star_end(state, binders, word, terminal),
        Top::Arguments(owner, arguments) => {
            among_arguments(alloc, state, owner, arguments, terminal)
        }
        Top::AbsName(binders, bracket) => abs_name(state, binders, bracket, terminal),
        Top::AbsClose(binders, bracket) => abs_close(alloc, state, binders, bracket, terminal),
    }
}
