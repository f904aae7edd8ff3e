//! Terms, types and goals as the text that `reading` reads, and the answers about them.

use basics::{Bytes, NoMemory};
use lf_terms::{Atom, Ctx, Goal, GoalList, Head, Shapes, Term, Terms, Ty, Tys};
use meta_goals::{Assign, Goals};
use meta_unify::Unified;
use std::alloc::Global;
use test_rows::append_number;

#[cycle(append_term)]
pub(crate) fn append_term(alloc: Global, text: &mut Bytes, term: &Term) -> Result<(), NoMemory> {
    match term {
        Term::Lam(body) => {
            text.push(b'\\')?;
            append_term(alloc, text, body.term())
        }
        Term::At(head, args) => {
            append_head(alloc, text, *head)?;
            append_args(alloc, text, args)
        }
    }
}

/// Adds terms, with a space before each, and those that are more than a head in parentheses.
#[cycle(append_term)]
pub(crate) fn append_args(alloc: Global, text: &mut Bytes, args: &Terms) -> Result<(), NoMemory> {
    let items = args.as_slice();
    for i in 0..items.len() {
        let item = &items[i];
        text.append(if is_bare(item) { b" " } else { b" (" })?;
        append_term(alloc, text, item)?;
        text.append(if is_bare(item) { b"" } else { b")" })?;
    }
    Ok(())
}

fn is_bare(term: &Term) -> bool {
    match term {
        Term::Lam(_) => false,
        Term::At(_, args) => args.len() == 0,
    }
}

fn append_head(alloc: Global, text: &mut Bytes, head: Head) -> Result<(), NoMemory> {
    match head {
        Head::Bound(number) => append_number(alloc, text, number),
        Head::Const(number) => append_letter(text, number),
        Head::Meta(goal) => {
            text.push(b'?')?;
            append_number(alloc, text, goal)
        }
    }
}

fn append_letter(text: &mut Bytes, number: u32) -> Result<(), NoMemory> {
    if number < 26 {
        text.push(b'a' + number as u8)
    } else {
        text.push(b'_')
    }
}

#[cycle(append_type)]
pub(crate) fn append_type(alloc: Global, text: &mut Bytes, ty: &Ty) -> Result<(), NoMemory> {
    append_binders(alloc, text, &ty.binders)?;
    append_letter(text, ty.family)?;
    append_args(alloc, text, &ty.args)
}

/// Adds types, each in braces.
#[cycle(append_type)]
pub(crate) fn append_binders(alloc: Global, text: &mut Bytes, types: &Tys) -> Result<(), NoMemory> {
    let items = types.as_slice();
    for i in 0..items.len() {
        text.push(b'{')?;
        append_type(alloc, text, &items[i])?;
        text.push(b'}')?;
    }
    Ok(())
}

pub(crate) fn append_atom(alloc: Global, text: &mut Bytes, atom: &Atom) -> Result<(), NoMemory> {
    append_letter(text, atom.family)?;
    append_args(alloc, text, &atom.args)
}

pub(crate) fn append_goal(alloc: Global, text: &mut Bytes, goal: &Goal) -> Result<(), NoMemory> {
    append_number(alloc, text, goal.id)?;
    text.push(b':')?;
    append_binders(alloc, text, &goal.ctx)?;
    append_atom(alloc, text, &goal.target)
}

/// Adds goals, with a comma before each.
pub(crate) fn append_goals(
    alloc: Global,
    text: &mut Bytes,
    goals: &GoalList,
) -> Result<(), NoMemory> {
    for goal in goals.as_slice() {
        text.push(b',')?;
        append_goal(alloc, text, goal)?;
    }
    Ok(())
}

/// Adds the proof goals and, after a semicolon, the witnesses.
pub(crate) fn append_list(alloc: Global, text: &mut Bytes, goals: &Goals) -> Result<(), NoMemory> {
    append_goals(alloc, text, &goals.proofs)?;
    text.push(b';')?;
    append_goals(alloc, text, &goals.witnesses)
}

/// Adds a dot for each shape that takes no arguments, and as many dots as there are arguments in parentheses for others.
fn append_shapes(text: &mut Bytes, shapes: &Shapes) -> Result<(), NoMemory> {
    for shape in shapes.as_slice() {
        append_shape(text, shape.args.len())?;
    }
    Ok(())
}

fn append_shape(text: &mut Bytes, count: usize) -> Result<(), NoMemory> {
    if count == 0 {
        return text.push(b'.');
    }
    text.push(b'(')?;
    for _ in 0..count {
        text.push(b'.')?;
    }
    text.push(b')')
}

/// Adds each entry: the goal, the shapes of its context, and the body.
fn append_assign(alloc: Global, text: &mut Bytes, assign: &Assign) -> Result<(), NoMemory> {
    for place in 0..assign.len() {
        if let Some((goal, entry)) = assign.at(place) {
            text.append(b" ?")?;
            append_number(alloc, text, goal)?;
            append_shapes(text, &entry.shapes)?;
            text.push(b'=')?;
            append_term(alloc, text, &entry.body)?;
            text.push(b';')?;
        }
    }
    Ok(())
}

fn append_path(alloc: Global, text: &mut Bytes, word: &[u8], path: &[u32]) -> Result<(), NoMemory> {
    text.append(word)?;
    for step in path {
        text.push(b' ')?;
        append_number(alloc, text, *step)?;
    }
    Ok(())
}

/// Adds the answer of unification: the entries or the reason, with its path.
pub(crate) fn append_unified(
    alloc: Global,
    text: &mut Bytes,
    unified: &Unified,
) -> Result<(), NoMemory> {
    match unified {
        Unified::Solved(assign) => {
            text.append(b"Solved")?;
            append_assign(alloc, text, assign)
        }
        Unified::Clash(path) => append_path(alloc, text, b"Clash", path.as_slice()),
        Unified::Occurs(goal) => {
            text.append(b"Occurs ")?;
            append_number(alloc, text, *goal)
        }
        Unified::Escapes(path) => append_path(alloc, text, b"Escapes", path.as_slice()),
        Unified::Prune(path) => append_path(alloc, text, b"Prune", path.as_slice()),
        Unified::NotPattern(path) => append_path(alloc, text, b"NotPattern", path.as_slice()),
    }
}
