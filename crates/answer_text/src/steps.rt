//! Scripts as text.

ghost use Rattle.std.specs.Prelude.{◌≡◌, ◌++◌, OnOk, OnErr, All, flat_map, map};
ghost use Rattle.std.specs.Io.{StartsWith};
ghost use Rattle.build_shared.specs.Seen.{seen_label};
ghost use Rattle.goal_expand.specs.Seen.{seen_last};
ghost use Rattle.proof_replay.specs.Seen.{seen_step};
ghost use Rattle.answer_text.specs.Texts.{label_text, last_text, norm_text, step_text};
ghost use Rattle.answer_text.specs.Writable.{LastNamesRule, NamesRule, StepNamesRules};

use crate::labels::append_label;
use basics::{Bytes, NoMemory};
use build_shared::Label;
use goal_expand::Last;
use proof_replay::Step;
use rule_sets::RuleBook;

// Adds a line for each step of a script.
pub(crate) fn append_script(
    rules: &RuleBook,
    script: &[Step],
    out: &mut Bytes,
) -> Result<(), NoMemory>
    requires { All (StepNamesRules rules.now) (map seen_step script.now) }
    ensures ok { OnOk result (out.new ≡ out.old ++ flat_map (step_text rules.now) (map seen_step script.now)) }
    ensures err { OnErr result (StartsWith out.new out.old) }
{
    for step in script {
        append_step(rules, step, out)?;
    }
    Ok(())
}

// Adds the line of a step.
fn append_step(rules: &RuleBook, step: &Step, out: &mut Bytes) -> Result<(), NoMemory>
    requires { StepNamesRules rules.now (seen_step step.now) }
    ensures ok { OnOk result (out.new ≡ out.old ++ step_text rules.now (seen_step step.now)) }
    ensures err { OnErr result (StartsWith out.new out.old) }
{
    out.append(b"step")?;
    append_norm(rules, step.norm.as_slice(), out)?;
    out.push(b' ')?;
    append_last(rules, &step.last, out)?;
    out.push(b'\n')
}

// Adds the labels of normalisation.
fn append_norm(rules: &RuleBook, labels: &[Label], out: &mut Bytes) -> Result<(), NoMemory>
    requires { All (NamesRule rules.now) (map seen_label labels.now) }
    ensures ok { OnOk result (out.new ≡ out.old ++ flat_map (norm_text rules.now) (map seen_label labels.now)) }
    ensures err { OnErr result (StartsWith out.new out.old) }
{
    for label in labels {
        append_called(rules, b" norm ", label, out)?;
    }
    Ok(())
}

// Adds the last part of a step.
fn append_last(rules: &RuleBook, last: &Last, out: &mut Bytes) -> Result<(), NoMemory>
    requires { LastNamesRule rules.now (seen_last last.now) }
    ensures ok { OnOk result (out.new ≡ out.old ++ last_text rules.now (seen_last last.now)) }
    ensures err { OnErr result (StartsWith out.new out.old) }
{
    match last {
        Last::Done => out.append(b"done"),
        Last::Safe(label) => append_called(rules, b"safe ", label, out),
        Last::Unsafe(label) => append_called(rules, b"unsafe ", label, out),
        Last::Late(label) => append_called(rules, b"late ", label, out),
    }
}

// Adds a label after a word.
fn append_called(
    rules: &RuleBook,
    word: &[u8],
    label: &Label,
    out: &mut Bytes,
) -> Result<(), NoMemory>
    requires { NamesRule rules.now (seen_label label.now) }
    ensures ok { OnOk result (out.new ≡ out.old ++ (word.now ++ label_text rules.now (seen_label label.now))) }
    ensures err { OnErr result (StartsWith out.new out.old) }
{
    out.append(word)?;
    append_label(rules, label, out)
}
