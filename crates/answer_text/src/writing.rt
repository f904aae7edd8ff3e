//! The text of a block.

ghost use Rattle.std.specs.Prelude.{◌≡◌, ◌++◌, OnOk, OnErr, All, codes, flat_map, map};
ghost use Rattle.std.specs.Io.{StartsWith};
ghost use Rattle.lf_terms.specs.Terms.{term_of};
ghost use Rattle.file_print.specs.Printable.{IsPrintable};
ghost use Rattle.answer_text.specs.Seen.{seen_block, seen_verdict};
ghost use Rattle.answer_text.specs.Texts.{block_text, line, verdict_text};
ghost use Rattle.answer_text.specs.Parts.{term_line};
ghost use Rattle.answer_text.specs.Writable.{IsWritable, IsWritableVerdict};

use crate::block::{Block, Verdict};
use crate::events::append_events;
use crate::steps::append_script;
use basics::{Bytes, Name, NoMemory};
use file_print::print_term;
use lf_terms::{Signature, Term};
use rule_sets::RuleBook;

/// Adds the text of a block, by the names of a signature and of the rules of a book. Its time is linear in the length of the text.
/// When memory runs out `out` is as it was.
pub fn write_block(
    sig: &Signature,
    rules: &RuleBook,
    block: &Block,
    out: &mut Bytes,
) -> Result<(), NoMemory>
    requires { IsWritable sig.now rules.now (seen_block block.now) }
    ensures ok { OnOk result (out.new ≡ out.old ++ block_text sig.now rules.now (seen_block block.now)) }
    ensures err { OnErr result (out.new ≡ out.old) }
{
    let before = out.len();
    let Err(refused) = append_block(sig, rules, block, out) else {
        return Ok(());
    };
    out.truncate(before);
    Err(refused)
}

// Adds the text of a block, and after a refusal perhaps a part of it.
fn append_block(
    sig: &Signature,
    rules: &RuleBook,
    block: &Block,
    out: &mut Bytes,
) -> Result<(), NoMemory>
    requires { IsWritable sig.now rules.now (seen_block block.now) }
    ensures ok { OnOk result (out.new ≡ out.old ++ block_text sig.now rules.now (seen_block block.now)) }
    ensures err { OnErr result (StartsWith out.new out.old) }
{
    append_verdict(sig, rules, &block.name, &block.verdict, out)?;
    match &block.events {
        None => Ok(()),
        Some(journal) => append_events(journal, out),
    }
}

// Adds the lines that say what was answered for a theorem of a name.
fn append_verdict(
    sig: &Signature,
    rules: &RuleBook,
    name: &Name,
    verdict: &Verdict,
    out: &mut Bytes,
) -> Result<(), NoMemory>
    requires { IsWritableVerdict sig.now rules.now (seen_verdict verdict.now) }
    ensures ok { OnOk result (out.new ≡ out.old ++ verdict_text sig.now rules.now name.now (seen_verdict verdict.now)) }
    ensures err { OnErr result (StartsWith out.new out.old) }
{
    match verdict {
        Verdict::Proved(term, script) => {
            append_answer(name, b" proved", out)?;
            append_term_line(sig, term, out)?;
            append_script(rules, script.as_slice(), out)
        }
        Verdict::Stuck => append_answer(name, b" stuck", out),
        Verdict::Spent => append_answer(name, b" spent", out),
    }
}

// Adds the line that says by a word what was answered for a theorem.
fn append_answer(name: &Name, word: &[u8], out: &mut Bytes) -> Result<(), NoMemory>
    ensures ok { OnOk result (out.new ≡ out.old ++ line (codes "theorem " ++ name.now ++ word.now)) }
    ensures err { OnErr result (StartsWith out.new out.old) }
{
    out.append(b"theorem ")?;
    out.append(name.as_bytes())?;
    out.append(word)?;
    out.push(b'\n')
}

// Adds the line of a term.
fn append_term_line(sig: &Signature, term: &Term, out: &mut Bytes) -> Result<(), NoMemory>
    requires { IsPrintable sig.now 0 (term_of term.now) }
    ensures ok { OnOk result (out.new ≡ out.old ++ term_line sig.now (term_of term.now)) }
    ensures err { OnErr result (StartsWith out.new out.old) }
{
    out.append(b"term ")?;
    print_term(sig, 0, term, out)?;
    out.push(b'\n')
}
