//! Scripts from text.

use basics::{Ids, Name, NoMemory};
use build_shared::Label;
use goal_expand::Last;
use proof_replay::Step;
use rule_sets::RuleBook;
use std::alloc::Global;

// What the labels of a step that follow are.
#[derive(Clone, Copy)]
enum Kind {
    Norm,
    Safe,
    Unsafe,
    Late,
}

/// The steps of a text, with a semicolon between them.
pub(crate) fn script_of(
    alloc: Global,
    rules: &RuleBook,
    text: &str,
) -> Result<Vec<Step>, NoMemory> {
    let mut steps = Vec::new(alloc);
    for part in text.split(';') {
        if !part.trim().is_empty() {
            steps.push(step_of(alloc, rules, part)?)?;
        }
    }
    Ok(steps)
}

// A step, as `norm pq@0 safe assumption@1`. Without a last label it is `done`.
fn step_of(alloc: Global, rules: &RuleBook, text: &str) -> Result<Step, NoMemory> {
    let mut norm = Vec::new(alloc);
    let mut last = Last::Done;
    let mut kind = Kind::Norm;
    for word in text.split_whitespace() {
        match word {
            "norm" | "done" => kind = Kind::Norm,
            "safe" => kind = Kind::Safe,
            "unsafe" => kind = Kind::Unsafe,
            "late" => kind = Kind::Late,
            _ => {
                let label = label_of(alloc, rules, word)?;
                match kind {
                    Kind::Norm => norm.push(label)?,
                    Kind::Safe => last = Last::Safe(label),
                    Kind::Unsafe => last = Last::Unsafe(label),
                    Kind::Late => last = Last::Late(label),
                }
            },
        }
    }
    Ok(Step { norm, last })
}

// A rule's name, the choice after a slash, and the places of the hypotheses after an at sign. A name that no rule has gets a number that none has.
fn label_of(alloc: Global, rules: &RuleBook, word: &str) -> Result<Label, NoMemory> {
    let (named, places) = word.split_once('@').unwrap_or((word, ""));
    let (name, choice) = named.split_once('/').unwrap_or((named, "0"));
    let name = Name::from_slice(alloc, name.as_bytes())?;
    let hyps = numbers_of(alloc, places)?;
    Ok(Label {
        rule: rules.find(&name).unwrap_or(u32::MAX),
        choice: choice.parse().unwrap_or(0),
        hyps,
    })
}

fn numbers_of(alloc: Global, text: &str) -> Result<Ids, NoMemory> {
    let mut numbers = Ids::new(alloc);
    for part in text.split(',') {
        if let Ok(number) = part.parse() {
            numbers.push(number)?;
        }
    }
    Ok(numbers)
}
