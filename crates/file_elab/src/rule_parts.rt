//! The parts of a rule.

ghost use Rattle.std.specs.Prelude.{◌≡◌, ℕ, IfOk, IsFalse};
ghost use Rattle.lf_definitions.specs.Signatures.{LfSignature};
ghost use Rattle.elab_terms.specs.Names.{text_at};
ghost use Rattle.file_elab.specs.ReadRules.{IsPhaseFor, number_of, IsConstantFor, IsSubjectFor, IsMajorFor, FitsMajor};
ghost use Rattle.file_elab.specs.Rules.{number_value, builder_of, major_value, set_of};
ghost use Rattle.rule_sets.specs.declared.rule.Builder.TheVariants as builders;
ghost use Rattle.rule_sets.specs.Refusals.{IsBadMajor, IsOver};

use crate::number::{natural, penalty};
use basics::{Name, NoMemory};
use elab_terms::file_text::text;
use elab_terms::names::{constant_named, family_named};
use file_trees::{BuildWord, PhaseWord, Span};
use lf_terms::Signature;
use rule_sets::{Builder, Phase, RuleBook};
use std::alloc::Global;

/// The phase of a rule with its number. A number that may not stand there is read as a percentage that no
/// rule may have.
pub fn read_phase(word: PhaseWord, text: &[u8]) -> Phase
    ensures { IsPhaseFor word (number_value text.now) result }
{
    match word {
        PhaseWord::Norm => match penalty(text) {
            None => Phase::Unsafe(u8::MAX),
            Some(number) => Phase::Norm(number),
        },
        PhaseWord::Safe => match penalty(text) {
            None => Phase::Unsafe(u8::MAX),
            Some(number) => Phase::Safe(number),
        },
        PhaseWord::Unsafe => match natural(text) {
            None => Phase::Unsafe(u8::MAX),
            Some(percent) => Phase::Unsafe(percent.min(255) as u8),
        },
    }
}

/// The builder that a word names.
pub fn read_builder(word: BuildWord) -> Builder
    ensures { result ≡ builder_of word }
{
    match word {
        BuildWord::Apply => Builder::Apply,
        BuildWord::Constructors => Builder::Constructors,
        BuildWord::Cases => Builder::Cases,
        BuildWord::Forward => Builder::Forward,
        BuildWord::Destruct => Builder::Destruct,
    }
}

/// The constant that a rule is made of, or for constructors the family. A name of none is read as a number
/// past them. It takes no memory.
pub fn read_subject(sig: &Signature, book: &RuleBook, builder: Builder, name: &[u8]) -> u32
    requires { IsOver sig.now book.now }
    ensures { IsSubjectFor sig.now book.now builder name.now result }
{
    match builder {
        Builder::Constructors => read_family(sig, book, name),
        _ => read_constant(sig, name),
    }
}

// The number of the family of a name, or one that has no list.
fn read_family(sig: &Signature, book: &RuleBook, name: &[u8]) -> u32
    requires { IsOver sig.now book.now }
    ensures { IsSubjectFor sig.now book.now builders.Constructors name.now result }
{
    match family_named(sig, name) {
        None => sig.families(),
        Some(family) => family,
    }
}

/// The number of the constant of a name, or else how many constants there are. It takes no memory.
pub fn read_constant(sig: &Signature, name: &[u8]) -> u32
    ensures number { result ≡ number_of sig.now name.now }
    ensures known { IsConstantFor sig.now name.now result }
{
    match constant_named(sig, name) {
        None => sig.constants(),
        Some(constant) => constant,
    }
}

/// The number of the major argument, which is 0 where there is none. One past 32 bits is read as a number
/// that no argument has.
pub fn read_major(
    source: &[u8],
    sig: &Signature,
    builder: Builder,
    subject: u32,
    major: Option<Span>,
) -> Result<u32, NoMemory>
    ensures { IfOk result (IsMajorFor sig.now builder subject (major_value source.now major)) }
{
    let Some(span) = major else {
        return Ok(0);
    };
    match natural(text(source, span)) {
        Some(number) => Ok(number),
        None => {
            if may_be_large(sig, builder, subject) {
                return Err(NoMemory);
            }
            Ok(no_major(builder))
        }
    }
}

// Whether an argument of the subject may have a number past 32 bits.
fn may_be_large(sig: &Signature, builder: Builder, subject: u32) -> bool
    ensures { IsFalse result → FitsMajor sig.now builder subject }
{
    match builder {
        Builder::Cases => {
            if subject >= sig.constants() {
                return false;
            }
            sig.type_of(subject).binders.len() > u32::MAX as usize
        }
        _ => false,
    }
}

// A number that no major argument has.
fn no_major(builder: Builder) -> u32
    ensures { (sig : LfSignature) (subject : ℕ) → IsBadMajor sig builder subject result }
{
    match builder {
        Builder::Cases => 0,
        _ => 1,
    }
}

/// The set that a rule is in.
pub fn read_set(alloc: Global, source: &[u8], set: Option<Span>) -> Result<Name, NoMemory>
    ensures { IfOk result (λ name. name ≡ set_of source.now set) }
{
    match set {
        None => Name::from_slice(alloc, b"default"),
        Some(span) => Name::from_slice(alloc, text(source, span)),
    }
}
