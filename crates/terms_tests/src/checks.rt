//! Entries that are added or refused, and terms that are checked, as text.

use crate::makers::{applied, arrow, atom, bare};
use basics::{Bytes, Name, NoMemory};
use lf_kernel::adding::{add_const, add_family};
use lf_kernel::typing::{check, check_type};
use lf_kernel::{Check, SigFault};
use lf_terms::{Ctx, GoalList, Head, Kind, Signature, Term, Ty, Tys};
use std::alloc::Global;

/// Adds a family without arguments, and a letter for the answer.
fn family(
    alloc: Global,
    sig: &mut Signature,
    name: &[u8],
    text: &mut Bytes,
) -> Result<(), NoMemory> {
    let name = Name::from_slice(alloc, name)?;
    let kind = Kind {
        binders: Tys::new(),
    };
    text.push(letter(add_family(alloc, sig, name, kind)))
}

/// Adds a constant, and a letter for the answer.
fn typed(
    alloc: Global,
    sig: &mut Signature,
    name: &[u8],
    ty: Ty,
    text: &mut Bytes,
) -> Result<(), NoMemory> {
    let name = Name::from_slice(alloc, name)?;
    text.push(letter(add_const(alloc, sig, name, ty)))
}

fn letter(answer: Result<u32, SigFault>) -> u8 {
    match answer {
        Ok(_) => b'+',
        Err(SigFault::Taken(3)) => b't',
        Err(SigFault::Taken(_)) => b'?',
        Err(SigFault::Full) => b'f',
        Err(SigFault::Ill(path)) => if path.as_slice() == [0].as_slice() {
            b'i'
        } else {
            b'?'
        },
        Err(SigFault::NoMemory(_)) => b'?',
    }
}

/// Adds the families 0 `a` and 1 `b` and the constants 0 `x : a`, 1 `y : b` and 2 `f : a -> a`, and tries to add
/// `y` once more, and one whose type begins with what is no family; a letter for each answer.
pub(crate) fn declare(
    alloc: Global,
    sig: &mut Signature,
    text: &mut Bytes,
) -> Result<(), NoMemory> {
    family(alloc, sig, b"a", text)?;
    family(alloc, sig, b"b", text)?;
    typed(alloc, sig, b"x", atom(0), text)?;
    typed(alloc, sig, b"y", atom(1), text)?;
    let unary = arrow(alloc, 0, 0)?;
    typed(alloc, sig, b"f", unary, text)?;
    family(alloc, sig, b"y", text)?;
    let wrong = arrow(alloc, 2, 0)?;
    typed(alloc, sig, b"g", wrong, text)
}

/// What is answered once 65,535 entries stand, where so many less one are constants of one family.
pub(crate) fn fill(alloc: Global, sig: &mut Signature, text: &mut Bytes) -> Result<(), NoMemory> {
    let mut letters = Bytes::new(alloc);
    family(alloc, sig, b"a", &mut letters)?;
    for number in 1..65_535u32 {
        typed(alloc, sig, &number.to_be_bytes(), atom(0), &mut letters)?;
    }
    family(alloc, sig, b"b", text)?;
    typed(alloc, sig, b"c", atom(0), text)
}

/// The check of a closed term at a type that is well formed.
fn closed(alloc: Global, sig: &Signature, term: &Term, ty: &Ty) -> Result<Option<Check>, NoMemory> {
    let metas = GoalList::new(alloc);
    let ctx = Ctx::new();
    match check_type(alloc, sig, &metas, &ctx, ty)? {
        Check::Ill(_) => Ok(None),
        Check::Well => Ok(Some(check(alloc, sig, &metas, &ctx, term, ty)?)),
    }
}

/// Adds the answer of a check at the family 0.
fn append_check(
    alloc: Global,
    sig: &Signature,
    term: &Term,
    text: &mut Bytes,
) -> Result<(), NoMemory> {
    let ty = atom(0);
    match closed(alloc, sig, term, &ty)? {
        None => text.append(b"no type;"),
        Some(Check::Well) => text.append(b"well;"),
        Some(Check::Ill(path)) => append_path(text, path.as_slice()),
    }
}

fn append_path(text: &mut Bytes, path: &[u32]) -> Result<(), NoMemory> {
    text.append(b"ill")?;
    for child in path {
        text.append(if *child == 0 { b" 0" } else { b" ?" })?;
    }
    text.push(b';')
}

/// Adds the answers for `f x`, `f y` and `f` alone.
pub(crate) fn append_checks(
    alloc: Global,
    sig: &Signature,
    text: &mut Bytes,
) -> Result<(), NoMemory> {
    let right = applied(alloc, Head::Const(2), bare(Head::Const(0)))?;
    append_check(alloc, sig, &right, text)?;
    let wrong = applied(alloc, Head::Const(2), bare(Head::Const(1)))?;
    append_check(alloc, sig, &wrong, text)?;
    append_check(alloc, sig, &bare(Head::Const(2)), text)
}
