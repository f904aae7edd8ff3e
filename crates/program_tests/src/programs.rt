//! Programs and parts of them, as text.

ghost use Rattle.std.specs.Prelude.{◌<◌, length};
ghost use Rattle.lf_definitions.specs.Signatures.{constant_names};

use crate::refusals::{program_of, refusal_text};
use basics::{Bytes, Name, NoMemory};
use file_print::{print_term, print_type};
use lf_terms::same::same_ty;
use lf_terms::{Head, Signature, Term, Terms};
use rule_sets::{RuleBook, Sets};
use std::alloc::Global;
use test_rows::append_number;

/// The numbers of the rules of the set `default` and of the built-in ones, in their order, and then the
/// constructors of the first family.
pub(crate) fn order_text(alloc: Global, rules: &RuleBook) -> Result<Bytes, NoMemory> {
    let mut sets = Sets::new(alloc);
    sets.push(Name::from_slice(alloc, b"default")?)?;
    let active = rules.active(alloc, &sets)?;
    let mut text = numbers_text(alloc, active.as_slice())?;
    if let Some(list) = rules.ctors(0) {
        append_numbers(alloc, &mut text, b'c', list.as_slice())?;
    }
    Ok(text)
}

fn numbers_text(alloc: Global, numbers: &[u32]) -> Result<Bytes, NoMemory> {
    let mut text = Bytes::new(alloc);
    append_numbers(alloc, &mut text, b'r', numbers)?;
    Ok(text)
}

fn append_numbers(
    alloc: Global,
    text: &mut Bytes,
    before: u8,
    numbers: &[u32],
) -> Result<(), NoMemory> {
    for number in numbers {
        text.push(before)?;
        append_number(alloc, text, *number)?;
        text.push(b';')?;
    }
    Ok(())
}

/// The name of the last constant, a colon, and its type.
pub(crate) fn printed_text(alloc: Global, sig: &Signature) -> Result<Bytes, NoMemory> {
    let mut text = Bytes::new(alloc);
    append_last(alloc, sig, &mut text)?;
    Ok(text)
}

fn append_last(alloc: Global, sig: &Signature, text: &mut Bytes) -> Result<(), NoMemory> {
    let count = sig.constants();
    if count == 0 {
        return Ok(());
    }
    let term = Term::At(Head::Const(count - 1), Terms::new());
    print_term(sig, 0, &term, text)?;
    text.append(b" : ")?;
    append_type(alloc, sig, count - 1, text)
}

/// Adds the text of the type of a constant.
fn append_type(
    alloc: Global,
    sig: &Signature,
    constant: u32,
    text: &mut Bytes,
) -> Result<(), NoMemory>
    requires { constant < length (constant_names sig.now) }
{
    sig.is_formed();
    print_type(alloc, sig, 0, sig.type_of(constant), text)
}

/// What is printed of the type of the last constant of a text that a type and a dot end, if it is read as
/// that type.
pub(crate) fn read_back_text(alloc: Global, before: &[u8], ty: &[u8]) -> Result<Bytes, NoMemory> {
    let first = ended(alloc, before, ty)?;
    match program_of(alloc, first.as_slice()) {
        Ok(program) => read_again_text(alloc, before, &program.sig),
        Err(fault) => refusal_text(alloc, fault),
    }
}

fn ended(alloc: Global, before: &[u8], ty: &[u8]) -> Result<Bytes, NoMemory> {
    let mut text = Bytes::from_slice(alloc, before)?;
    text.append(ty)?;
    text.push(b'.')?;
    Ok(text)
}

fn read_again_text(alloc: Global, before: &[u8], sig: &Signature) -> Result<Bytes, NoMemory> {
    let printed = type_text(alloc, sig)?;
    let second = ended(alloc, before, printed.as_slice())?;
    match program_of(alloc, second.as_slice()) {
        Ok(program) => {
            if have_one_type(sig, &program.sig) {
                Ok(printed)
            } else {
                Bytes::from_slice(alloc, b"another type")
            }
        }
        Err(fault) => refusal_text(alloc, fault),
    }
}

fn type_text(alloc: Global, sig: &Signature) -> Result<Bytes, NoMemory> {
    let mut text = Bytes::new(alloc);
    let count = sig.constants();
    if count > 0 {
        append_type(alloc, sig, count - 1, &mut text)?;
    }
    Ok(text)
}

/// Whether the last constants have one type.
fn have_one_type(first: &Signature, second: &Signature) -> bool {
    let count = first.constants();
    if count == 0 || second.constants() != count {
        return false;
    }
    same_ty(first.type_of(count - 1), second.type_of(count - 1))
}
