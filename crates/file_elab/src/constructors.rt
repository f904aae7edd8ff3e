//! Declarations of the constructors of a family.

ghost use Rattle.std.specs.Prelude.{◌≡◌, map, IfOk, IfErr, OnOk, OnErr};
ghost use Rattle.rule_sets.specs.Refusals.{IsOver};
ghost use Rattle.elab_terms.specs.KnownTypes.{IsRefusal};
ghost use Rattle.file_elab.specs.Constructors.{number_in, HasPlaceIn, other_refused_as, list_refused_as};
ghost use Rattle.file_elab.specs.ProgramParts.{DeclaresInBook, RefusesInBook};
ghost use Rattle.file_trees.specs.declared.decl_tree.DeclTree.TheVariants as declarations;

use crate::rule_parts::read_constant;
use basics::{Ids, NoMemory};
use elab_terms::ElabFault;
use elab_terms::file_text::text;
use elab_terms::names::{constant_named, family_named};
use file_trees::{Span, Spans};
use lf_terms::Signature;
use rule_sets::{CtorFault, RuleBook};
use std::alloc::Global;

/// Declares the constructors of a family: their names are read as numbers, and the book takes the list, or
/// says what is wrong with it. It is refused where its name is no family's, or the family has a list, or
/// else at the first of the constants that is wrong, and then the book is as it was.
pub fn declare_constructors(
    alloc: Global,
    source: &[u8],
    sig: &Signature,
    book: &mut RuleBook,
    name: Span,
    spans: &Spans,
) -> Result<(), ElabFault>
    ensures declared { IfOk result (λ _. DeclaresInBook source.now sig.now book.old (declarations.Ctors name spans.now) book.new) }
    ensures refused { IfErr result (IsRefusal (RefusesInBook source.now sig.now book.old (declarations.Ctors name spans.now))) }
    ensures err { OnErr result (book.new ≡ book.old) }
    ensures over { OnOk result (IsOver sig.now book.old → IsOver sig.now book.new) }
{
    let Some(family) = family_named(sig, text(source, name)) else {
        return Err(ElabFault::Unknown(name.start));
    };
    let constants = read_constants(alloc, source, sig, spans.as_slice())?;
    match book.add_ctors(alloc, sig, family, constants) {
        Ok(()) => Ok(()),
        Err(fault) => Err(placed(source, sig, name, spans.as_slice(), fault)),
    }
}

// The numbers of the constants of these names. A name of none is read as a number past them.
fn read_constants(
    alloc: Global,
    source: &[u8],
    sig: &Signature,
    spans: &[Span],
) -> Result<Ids, NoMemory>
    ensures { IfOk result (λ numbers. numbers ≡ map (number_in source.now sig.now) spans.now) }
{
    let mut numbers = Ids::new(alloc);
    for i in 0..spans.len() {
        numbers.push(read_constant(sig, text(source, spans[i])))?;
    }
    Ok(numbers)
}

// The fault of a list of constructors, at the name that has it.
fn placed(source: &[u8], sig: &Signature, name: Span, spans: &[Span], fault: CtorFault) -> ElabFault
    requires { HasPlaceIn spans.now fault }
    ensures { result ≡ list_refused_as source.now sig.now name spans.now fault }
{
    match fault {
        CtorFault::Taken => ElabFault::Taken(name.start),
        CtorFault::Repeated(place) => ElabFault::Taken(spans[place as usize].start),
        CtorFault::Other(place) => wrong_constant(source, sig, spans[place as usize]),
        CtorFault::NoMemory(_) => ElabFault::NoMemory,
    }
}

// Why a name is none of a constant of the family.
fn wrong_constant(source: &[u8], sig: &Signature, span: Span) -> ElabFault
    ensures { result ≡ other_refused_as source.now sig.now span }
{
    match constant_named(sig, text(source, span)) {
        None => ElabFault::Unknown(span.start),
        Some(_) => ElabFault::BadRule(span.start),
    }
}
