//! Equal labels.

ghost use Rattle.std.specs.Prelude.{◌≡◌, IfOk};

use basics::{Ids, NoMemory};
use build_shared::Label;
use std::alloc::Global;

/// Equal labels, in their order.
pub fn copied(alloc: Global, labels: &[Label]) -> Result<Vec<Label>, NoMemory>
    ensures { IfOk result (λ copies. copies.items ≡ labels.now) }
{
    let mut copies = Vec::with_capacity(alloc, labels.len())?;
    for label in labels {
        let copy = copied_label(alloc, label)?;
        copies.push(copy)?;
    }
    Ok(copies)
}

// An equal label.
fn copied_label(alloc: Global, label: &Label) -> Result<Label, NoMemory>
    ensures { IfOk result (λ copy. copy ≡ label.now) }
{
    let hyps = copied_numbers(alloc, &label.hyps)?;
    Ok(Label {
        rule: label.rule,
        choice: label.choice,
        hyps,
    })
}

// Equal numbers.
fn copied_numbers(alloc: Global, numbers: &Ids) -> Result<Ids, NoMemory>
    ensures { IfOk result (λ copy. copy ≡ numbers.now) }
{
    let mut copy = Ids::new(alloc);
    let items = numbers.as_slice();
    for number in items {
        copy.push(*number)?;
    }
    Ok(copy)
}
