//! Declarations of rules.

ghost use Rattle.std.specs.Prelude.{◌≡◌, IfOk, IfErr, OnOk, OnErr};
ghost use Rattle.rule_sets.specs.Refusals.{IsOver};
ghost use Rattle.elab_terms.specs.KnownTypes.{IsRefusal};
ghost use Rattle.file_elab.specs.ProgramParts.{DeclaresInBook, RefusesInBook};
ghost use Rattle.file_elab.specs.ReadRules.{IsReadRule, refused_as};
ghost use Rattle.file_elab.specs.Rules.{major_place};
ghost use Rattle.file_trees.specs.declared.decl_tree.DeclTree.TheVariants as declarations;

use crate::rule_parts::{read_builder, read_major, read_phase, read_set, read_subject};
use basics::{Name, NoMemory};
use elab_terms::ElabFault;
use elab_terms::file_text::text;
use file_trees::{RuleTree, Span};
use lf_terms::Signature;
use rule_sets::{Rule, RuleBook, RuleFault};
use std::alloc::Global;

/// Declares a rule: its parts are read from the text, and the book takes the rule after the others, or says
/// what is wrong with it. The error is the first thing that is, of its name, its number, its subject, its
/// major argument and its premises, or out of memory. A book that was over the signature stays so,
/// and after a refusal it is as it was.
pub fn declare_rule(
    alloc: Global,
    source: &[u8],
    sig: &Signature,
    book: &mut RuleBook,
    parts: RuleTree,
) -> Result<(), ElabFault>
    requires { IsOver sig.now book.old }
    ensures declared { IfOk result (λ _. DeclaresInBook source.now sig.now book.old (declarations.Rule parts) book.new) }
    ensures refused { IfErr result (IsRefusal (RefusesInBook source.now sig.now book.old (declarations.Rule parts))) }
    ensures err { OnErr result (book.new ≡ book.old) }
    ensures over { OnOk result (IsOver sig.now book.new) }
{
    let rule = read_rule(alloc, source, sig, &*book, parts)?;
    match book.add(alloc, sig, rule) {
        Ok(()) => Ok(()),
        Err(fault) => Err(placed(parts, fault)),
    }
}

// The rule of a declaration. Whether it has a fault is for the book to say.
fn read_rule(
    alloc: Global,
    source: &[u8],
    sig: &Signature,
    book: &RuleBook,
    parts: RuleTree,
) -> Result<Rule, NoMemory>
    requires { IsOver sig.now book.now }
    ensures { IfOk result (IsReadRule source.now sig.now book.now parts) }
{
    let name = Name::from_slice(alloc, text(source, parts.name))?;
    let set = read_set(alloc, source, parts.set)?;
    let phase = read_phase(parts.phase, text(source, parts.number));
    let builder = read_builder(parts.builder);
    let subject = read_subject(sig, book, builder, text(source, parts.subject));
    let major = read_major(source, sig, builder, subject, parts.major)?;
    Ok(Rule {
        name,
        set,
        phase,
        builder,
        subject,
        major,
    })
}

// The fault of a rule, at the part that has it.
fn placed(parts: RuleTree, fault: RuleFault) -> ElabFault
    ensures { result ≡ refused_as parts fault }
{
    match fault {
        RuleFault::Taken => ElabFault::Taken(parts.name.start),
        RuleFault::Full => ElabFault::TooMany(parts.name.start),
        RuleFault::Percent => ElabFault::BadRule(parts.number.start),
        RuleFault::NoConst => ElabFault::Unknown(parts.subject.start),
        RuleFault::BadMajor => ElabFault::BadRule(major_start(parts.subject, parts.major)),
        RuleFault::Premises => ElabFault::BadRule(parts.subject.start),
        RuleFault::NoMemory(_) => ElabFault::NoMemory,
    }
}

// Where a wrong major argument is refused.
fn major_start(subject: Span, major: Option<Span>) -> u32
    ensures { result ≡ major_place subject major }
{
    match major {
        None => subject.start,
        Some(span) => span.start,
    }
}
