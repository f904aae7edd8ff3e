//! Labels as text.

ghost use Rattle.std.specs.Prelude.{◌≡◌, ◌++◌, OnOk, OnErr};
ghost use Rattle.std.specs.Io.{StartsWith};
ghost use Rattle.build_shared.specs.Seen.{seen_label};
ghost use Rattle.answer_text.specs.Texts.{choice_text, hypotheses_text, label_text, says_choice, says_hypotheses};
ghost use Rattle.answer_text.specs.Writable.{NamesRule};

use crate::numerals::{append_decimal, append_listed};
use basics::{Bytes, Ids, NoMemory};
use build_shared::Label;
use rule_sets::{Builder, RuleBook};

// Adds the label of an application: its rule's name, and the places that the rule's builder says.
pub(crate) fn append_label(rules: &RuleBook, label: &Label, out: &mut Bytes) -> Result<(), NoMemory>
    requires { NamesRule rules.now (seen_label label.now) }
    ensures ok { OnOk result (out.new ≡ out.old ++ label_text rules.now (seen_label label.now)) }
    ensures err { OnErr result (StartsWith out.new out.old) }
{
    let rule = rules.rule(label.rule);
    out.append(rule.name.as_bytes())?;
    append_choice(rule.builder, label.choice, out)?;
    append_hypotheses(rule.builder, &label.hyps, out)
}

// Adds the place of a constructor where the builder says it.
fn append_choice(builder: Builder, choice: u32, out: &mut Bytes) -> Result<(), NoMemory>
    ensures ok { OnOk result (out.new ≡ out.old ++ choice_text (says_choice builder) choice) }
    ensures err { OnErr result (StartsWith out.new out.old) }
{
    if !has_choice(builder) {
        return Ok(());
    }
    out.push(b'/')?;
    append_decimal(choice, out)
}

// Adds the places of hypotheses where the builder says them.
fn append_hypotheses(builder: Builder, places: &Ids, out: &mut Bytes) -> Result<(), NoMemory>
    ensures ok { OnOk result (out.new ≡ out.old ++ hypotheses_text (says_hypotheses builder) places.now) }
    ensures err { OnErr result (StartsWith out.new out.old) }
{
    if !has_hypotheses(builder) {
        return Ok(());
    }
    out.push(b'@')?;
    append_listed(places, out)
}

// Whether a builder's labels say the place of a constructor.
fn has_choice(builder: Builder) -> bool
    ensures { result ≡ says_choice builder }
{
    matches!(builder, Builder::Constructors)
}

// Whether a builder's labels say places of hypotheses.
fn has_hypotheses(builder: Builder) -> bool
    ensures { result ≡ says_hypotheses builder }
{
    !matches!(builder, Builder::Apply | Builder::Constructors)
}
