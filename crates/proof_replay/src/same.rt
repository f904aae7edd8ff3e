//! Whether labels are equal.

ghost use Rattle.std.specs.Prelude.{◌≡◌, map};
ghost use Rattle.build_shared.specs.Seen.{seen_label};
ghost use Rattle.derivations.specs.Replays.{same_numbers, same_label, same_labels};

use build_shared::Label;

/// Whether two lists have equal labels.
pub(crate) fn same_labels(labels: &[Label], others: &[Label]) -> bool
    ensures { result ≡ same_labels (map seen_label labels.now) (map seen_label others.now) }
{
    if labels.len() != others.len() {
        return false;
    }
    for i in 0..labels.len() {
        if !same_label(&labels[i], &others[i]) {
            return false;
        }
    }
    true
}

/// Whether two labels are equal.
pub(crate) fn same_label(label: &Label, other: &Label) -> bool
    ensures { result ≡ same_label (seen_label label.now) (seen_label other.now) }
{
    label.rule == other.rule
        && label.choice == other.choice
        && same_numbers(label.hyps.as_slice(), other.hyps.as_slice())
}

// Whether two lists have equal numbers.
fn same_numbers(numbers: &[u32], others: &[u32]) -> bool
    ensures { result ≡ same_numbers numbers.now others.now }
{
    if numbers.len() != others.len() {
        return false;
    }
    for i in 0..numbers.len() {
        let number = numbers[i];
        let other = others[i];
        if number != other {
            return false;
        }
    }
    true
}
