//! Applications as text.

use basics::{Bytes, NoMemory};
use build_shared::App;
use lf_terms::Signature;
use rule_sets::RuleBook;
use std::alloc::Global;
use test_goals::{append_goals, append_label, append_term};

// Adds the label, what the goal 0 becomes, the new goals, and whether others are assigned.
fn append_application(
    alloc: Global,
    sig: &Signature,
    rules: &RuleBook,
    text: &mut Bytes,
    app: &App,
) -> Result<(), NoMemory> {
    append_label(alloc, rules, text, &app.label)?;
    text.append(b": ")?;
    match app.assign.find(0) {
        None => text.append(b"nothing")?,
        Some(entry) => append_term(alloc, sig, text, &entry.body)?,
    }
    append_goals(alloc, sig, text, ", proof ", &app.proofs)?;
    append_goals(alloc, sig, text, ", witness ", &app.witnesses)?;
    if app.assigns_others {
        text.append(b", others")?;
    }
    Ok(())
}

/// Adds applications with a semicolon between them, or a word where there is none.
pub(crate) fn append_applications(
    alloc: Global,
    sig: &Signature,
    rules: &RuleBook,
    text: &mut Bytes,
    apps: &[App],
) -> Result<(), NoMemory> {
    if apps.len() == 0 {
        return text.append(b"none");
    }
    for i in 0..apps.len() {
        text.append(if i == 0 { b"" } else { b"; " })?;
        append_application(alloc, sig, rules, text, &apps[i])?;
    }
    Ok(())
}
