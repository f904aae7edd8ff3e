//! Normal forms, alternatives, clusters and what comes of scripts, as text.

use basics::{Bytes, NoMemory};
use build_shared::Label;
use goal_book::GoalBook;
use goal_clusters::Cluster;
use goal_expand::{Alternative, Last, Normed};
use lf_terms::Signature;
use meta_goals::Goals;
use proof_replay::Replayed;
use rule_sets::RuleBook;
use std::alloc::Global;
use test_goals::{append_goals, append_label, append_term};
use test_rows::append_number;

/// Adds whether the goal was closed, the labels of the steps, and the goals that are left.
pub(crate) fn append_normed(
    alloc: Global,
    book: &GoalBook<'_>,
    text: &mut Bytes,
    normed: &Normed,
) -> Result<(), NoMemory> {
    text.append(if normed.closed { b"closed" } else { b"open" })?;
    append_labels(alloc, book.rules(), text, normed.labels.as_slice())?;
    append_list(alloc, book.sig(), text, &normed.goals)
}

/// Adds alternatives with a semicolon between them, or a word where there is none.
pub(crate) fn append_alternatives(
    alloc: Global,
    book: &GoalBook<'_>,
    text: &mut Bytes,
    found: &[Alternative],
) -> Result<(), NoMemory> {
    if found.len() == 0 {
        return text.append(b"none");
    }
    for i in 0..found.len() {
        text.append(if i == 0 { b"" } else { b"; " })?;
        append_alternative(alloc, book, text, &found[i])?;
    }
    Ok(())
}

// Adds the percentage, the step, and the goals that are left.
fn append_alternative(
    alloc: Global,
    book: &GoalBook<'_>,
    text: &mut Bytes,
    alternative: &Alternative,
) -> Result<(), NoMemory> {
    append_number(alloc, text, alternative.percent as u32)?;
    if alternative.norm.len() > 0 {
        text.append(b" norm")?;
    }
    append_labels(alloc, book.rules(), text, alternative.norm.as_slice())?;
    append_last(alloc, book.rules(), text, &alternative.last)?;
    append_list(alloc, book.sig(), text, &alternative.goals)
}

// Adds labels, with a space before each.
fn append_labels(
    alloc: Global,
    rules: &RuleBook,
    text: &mut Bytes,
    labels: &[Label],
) -> Result<(), NoMemory> {
    for label in labels {
        text.push(b' ')?;
        append_label(alloc, rules, text, label)?;
    }
    Ok(())
}

// Adds the last step, with a space before it.
fn append_last(
    alloc: Global,
    rules: &RuleBook,
    text: &mut Bytes,
    last: &Last,
) -> Result<(), NoMemory> {
    match last {
        Last::Done => text.append(b" done"),
        Last::Safe(label) => {
            text.append(b" safe ")?;
            append_label(alloc, rules, text, label)
        },
        Last::Unsafe(label) => {
            text.append(b" unsafe ")?;
            append_label(alloc, rules, text, label)
        },
        Last::Late(label) => {
            text.append(b" late ")?;
            append_label(alloc, rules, text, label)
        },
    }
}

// Adds the goals of a list, proofs before witnesses.
fn append_list(
    alloc: Global,
    sig: &Signature,
    text: &mut Bytes,
    list: &Goals,
) -> Result<(), NoMemory> {
    append_goals(alloc, sig, text, ", proof ", &list.proofs)?;
    append_goals(alloc, sig, text, ", witness ", &list.witnesses)
}

/// Adds clusters with a semicolon between them, or a word where there is none.
pub(crate) fn append_clusters(
    alloc: Global,
    book: &GoalBook<'_>,
    text: &mut Bytes,
    found: &[Cluster],
) -> Result<(), NoMemory> {
    if found.len() == 0 {
        return text.append(b"none");
    }
    for i in 0..found.len() {
        text.append(if i == 0 { b"" } else { b"; " })?;
        append_cluster(alloc, book.sig(), text, &found[i])?;
    }
    Ok(())
}

// Adds the goals of a cluster, and each old number with the new one.
fn append_cluster(
    alloc: Global,
    sig: &Signature,
    text: &mut Bytes,
    cluster: &Cluster,
) -> Result<(), NoMemory> {
    text.append(b"cluster")?;
    append_list(alloc, sig, text, &cluster.goals)?;
    for (old, new) in cluster.renaming.as_slice() {
        text.append(b", ")?;
        append_number(alloc, text, *old)?;
        text.append(b" to ")?;
        append_number(alloc, text, *new)?;
    }
    Ok(())
}

/// Adds the term, or why there is none.
pub(crate) fn append_replayed(
    alloc: Global,
    sig: &Signature,
    text: &mut Bytes,
    replayed: &Replayed,
) -> Result<(), NoMemory> {
    match replayed {
        Replayed::Closed(term) => append_term(alloc, sig, text, term),
        Replayed::NoSuchStep(step) => append_counted(alloc, text, b"no such step ", *step),
        Replayed::StepsLeft(step) => append_counted(alloc, text, b"steps left from ", *step),
        Replayed::GoalsLeft(count) => append_counted(alloc, text, b"goals left after ", *count),
    }
}

fn append_counted(
    alloc: Global,
    text: &mut Bytes,
    words: &[u8],
    number: u32,
) -> Result<(), NoMemory> {
    text.append(words)?;
    append_number(alloc, text, number)
}
