//! Terms, goals and labels as text: constants and families by their names, variables by how many binders stand between, and goals by their numbers after a question mark.

use basics::{Bytes, NoMemory};
use build_shared::Label;
use lf_terms::{GoalList, Head, Signature, Term, Terms, Ty, Tys};
use rule_sets::RuleBook;
use std::alloc::Global;
use test_rows::append_number;

/// Adds a term.
///
/// # Errors
///
/// `NoMemory` where memory runs out.
#[cycle(append_term)]
pub fn append_term(
    alloc: Global,
    sig: &Signature,
    text: &mut Bytes,
    term: &Term,
) -> Result<(), NoMemory> {
    match term {
        Term::Lam(body) => {
            text.append(b"[] ")?;
            append_term(alloc, sig, text, body.term())
        },
        Term::At(head, args) => {
            append_head(alloc, sig, text, *head)?;
            append_args(alloc, sig, text, args)
        },
    }
}

// Adds terms, with a space before each, and those that are more than a head in parentheses.
#[cycle(append_term)]
fn append_args(
    alloc: Global,
    sig: &Signature,
    text: &mut Bytes,
    args: &Terms,
) -> Result<(), NoMemory> {
    let items = args.as_slice();
    for i in 0..items.len() {
        let item = &items[i];
        text.append(if is_bare(item) { b" " } else { b" (" })?;
        append_term(alloc, sig, text, item)?;
        text.append(if is_bare(item) { b"" } else { b")" })?;
    }
    Ok(())
}

fn is_bare(term: &Term) -> bool {
    match term {
        Term::Lam(_) => false,
        Term::At(_, args) => args.len() == 0,
    }
}

fn append_head(
    alloc: Global,
    sig: &Signature,
    text: &mut Bytes,
    head: Head,
) -> Result<(), NoMemory> {
    match head {
        Head::Bound(number) => append_number(alloc, text, number),
        Head::Const(number) => append_constant(sig, text, number),
        Head::Meta(goal) => {
            text.push(b'?')?;
            append_number(alloc, text, goal)
        },
    }
}

fn append_constant(sig: &Signature, text: &mut Bytes, number: u32) -> Result<(), NoMemory> {
    if number < sig.constants() {
        text.append(sig.const_name(number).as_bytes())
    } else {
        text.push(b'?')
    }
}

fn append_family(sig: &Signature, text: &mut Bytes, number: u32) -> Result<(), NoMemory> {
    if number < sig.families() {
        text.append(sig.family_name(number).as_bytes())
    } else {
        text.push(b'?')
    }
}

#[cycle(append_type)]
fn append_type(alloc: Global, sig: &Signature, text: &mut Bytes, ty: &Ty) -> Result<(), NoMemory> {
    append_binders(alloc, sig, text, &ty.binders)?;
    append_family(sig, text, ty.family)?;
    append_args(alloc, sig, text, &ty.args)
}

// Adds types, each in braces, with a space behind each.
#[cycle(append_type)]
fn append_binders(
    alloc: Global,
    sig: &Signature,
    text: &mut Bytes,
    types: &Tys,
) -> Result<(), NoMemory> {
    let items = types.as_slice();
    for i in 0..items.len() {
        text.push(b'{')?;
        append_type(alloc, sig, text, &items[i])?;
        text.append(b"} ")?;
    }
    Ok(())
}

/// Adds the numbers of goals, each with its context and its target, and with a word before it.
///
/// # Errors
///
/// `NoMemory` where memory runs out.
pub fn append_goals(
    alloc: Global,
    sig: &Signature,
    text: &mut Bytes,
    word: &str,
    goals: &GoalList,
) -> Result<(), NoMemory> {
    for goal in goals.as_slice() {
        text.append(word.as_bytes())?;
        append_number(alloc, text, goal.id)?;
        text.push(b' ')?;
        append_binders(alloc, sig, text, &goal.ctx)?;
        append_family(sig, text, goal.target.family)?;
        append_args(alloc, sig, text, &goal.target.args)?;
    }
    Ok(())
}

/// Adds the rule, the choice after a dot, and the places of the hypotheses, if there are any.
///
/// # Errors
///
/// `NoMemory` where memory runs out.
pub fn append_label(
    alloc: Global,
    rules: &RuleBook,
    text: &mut Bytes,
    label: &Label,
) -> Result<(), NoMemory> {
    append_rule(rules, label.rule, text)?;
    text.push(b'.')?;
    append_number(alloc, text, label.choice)?;
    let places = label.hyps.as_slice();
    for i in 0..places.len() {
        text.append(if i == 0 { b" on " } else { b"," })?;
        append_number(alloc, text, places[i])?;
    }
    Ok(())
}

/// Adds the name of a rule, or a question mark where there is none of the number.
///
/// # Errors
///
/// `NoMemory` where memory runs out.
pub fn append_rule(rules: &RuleBook, number: u32, text: &mut Bytes) -> Result<(), NoMemory> {
    if number < rules.count() {
        text.append(rules.rule(number).name.as_bytes())
    } else {
        text.push(b'?')
    }
}
