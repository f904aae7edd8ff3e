//! Printing terms and types.

ghost use Rattle.std.specs.Prelude.{◌≡◌, ◌+◌, ◌<◌, ◌++◌, IfOk, OnOk, OnErr, false, length, slice_index_or};
ghost use Rattle.std.specs.Io.{StartsWith};
ghost use Rattle.lf_terms.specs.Terms.{head_of, term_of};
ghost use Rattle.lf_terms.specs.Types.{type_of};
ghost use Rattle.file_print.specs.Parts.{abstracted_text, argument_text, binder_text, left_text};
ghost use Rattle.binder_marks.specs.Marks.{HaveAt, marks_of};
ghost use Rattle.file_print.specs.Printable.{ArePrintable, IsPrintable, IsPrintableHead, IsPrintableType};
ghost use Rattle.file_print.specs.Texts.{args_text, has_binders, head_text, is_name, term_text, type_text};

use crate::numerals::append_variable;
use basics::{Bytes, NoMemory};
use binder_marks::binder_marks;
use lf_terms::{Head, Signature, Term, Terms, Ty};
use std::alloc::Global;

/// Adds the text of a term that stands under so many binders. It names each variable by the number of
/// binders around its own. Its time is linear in the length of the text. When memory runs out `out` is as it was.
pub fn print_term(sig: &Signature, depth: u32, term: &Term, out: &mut Bytes) -> Result<(), NoMemory>
    requires { IsPrintable sig.now depth (term_of term.now) }
    ensures ok { OnOk result (out.new ≡ out.old ++ term_text sig.now depth (term_of term.now)) }
    ensures err { OnErr result (out.new ≡ out.old) }
{
    let before = out.len();
    let Err(refused) = append_term(sig, depth, term, out) else {
        return Ok(());
    };
    out.truncate(before);
    Err(refused)
}

/// Adds the text of a type that stands under so many binders. Its time is linear in the length of the text.
/// When memory runs out `out` is as it was.
pub fn print_type(
    alloc: Global,
    sig: &Signature,
    depth: u32,
    ty: &Ty,
    out: &mut Bytes,
) -> Result<(), NoMemory>
    requires { IsPrintableType sig.now depth (type_of ty.now) }
    ensures ok { OnOk result (out.new ≡ out.old ++ type_text sig.now depth (type_of ty.now)) }
    ensures err { OnErr result (out.new ≡ out.old) }
{
    let marks = binder_marks(alloc, ty)?;
    let before = out.len();
    let Err(refused) = append_type(sig, depth, marks.as_slice(), 0, ty, out) else {
        return Ok(());
    };
    out.truncate(before);
    Err(refused)
}

#[cycle(append_term)]
fn append_term(sig: &Signature, depth: u32, term: &Term, out: &mut Bytes) -> Result<(), NoMemory>
    requires { IsPrintable sig.now depth (term_of term.now) }
    ensures ok { OnOk result (out.new ≡ out.old ++ term_text sig.now depth (term_of term.now)) }
    ensures err { OnErr result (StartsWith out.new out.old) }
{
    match term {
        Term::Lam(body) => {
            let inside = deeper(depth)?;
            append_abstracted(depth, out)?;
            append_term(sig, inside, body.term(), out)
        }
        Term::At(head, args) => {
            append_head(sig, depth, *head, out)?;
            append_args(sig, depth, args, out)
        }
    }
}

// Adds arguments, each after a space.
#[cycle(append_term)]
fn append_args(sig: &Signature, depth: u32, args: &Terms, out: &mut Bytes) -> Result<(), NoMemory>
    requires { ArePrintable sig.now depth args.now }
    ensures ok { OnOk result (out.new ≡ out.old ++ args_text sig.now depth args.now) }
    ensures err { OnErr result (StartsWith out.new out.old) }
{
    let items = args.as_slice();
    for item in items {
        append_argument(sig, depth, item, out)?;
    }
    Ok(())
}

// Adds a space and an argument, in parentheses unless it is a head alone.
#[cycle(append_term)]
fn append_argument(
    sig: &Signature,
    depth: u32,
    term: &Term,
    out: &mut Bytes,
) -> Result<(), NoMemory>
    requires { IsPrintable sig.now depth (term_of term.now) }
    ensures ok { OnOk result (out.new ≡ out.old ++ argument_text sig.now depth (term_of term.now)) }
    ensures err { OnErr result (StartsWith out.new out.old) }
{
    if is_bare(term) {
        out.push(b' ')?;
        return append_term(sig, depth, term, out);
    }
    out.append(b" (")?;
    append_term(sig, depth, term, out)?;
    out.push(b')')
}

// Whether a term is a head without arguments.
fn is_bare(term: &Term) -> bool
    ensures { result ≡ is_name (term_of term.now) }
{
    match term {
        Term::Lam(_) => false,
        Term::At(_, args) => args.len() == 0,
    }
}

// Adds the variable of an abstraction in brackets, and a space.
fn append_abstracted(depth: u32, out: &mut Bytes) -> Result<(), NoMemory>
    ensures ok { OnOk result (out.new ≡ out.old ++ abstracted_text depth) }
    ensures err { OnErr result (StartsWith out.new out.old) }
{
    out.push(b'[')?;
    append_variable(depth, out)?;
    out.append(b"] ")
}

fn append_head(sig: &Signature, depth: u32, head: Head, out: &mut Bytes) -> Result<(), NoMemory>
    requires { IsPrintableHead sig.now depth (head_of head) }
    ensures ok { OnOk result (out.new ≡ out.old ++ head_text sig.now depth (head_of head)) }
    ensures err { OnErr result (StartsWith out.new out.old) }
{
    match head {
        Head::Bound(number) => append_variable(depth - number - 1, out),
        Head::Const(constant) => out.append(sig.const_name(constant).as_bytes()),
        Head::Meta(_) => unreachable!(),
    }
}

// Adds a type. The marks of its binders stand from this place on, and it answers the place after them.
#[cycle(append_type)]
fn append_type(
    sig: &Signature,
    depth: u32,
    marks: &[bool],
    place: usize,
    ty: &Ty,
    out: &mut Bytes,
) -> Result<usize, NoMemory>
    requires printable { IsPrintableType sig.now depth (type_of ty.now) }
    requires marks { HaveAt marks.now place (marks_of (type_of ty.now)) }
    ensures place { IfOk result (λ after. after ≡ place + length (marks_of (type_of ty.now))) }
    ensures ok { OnOk result (out.new ≡ out.old ++ type_text sig.now depth (type_of ty.now)) }
    ensures err { OnErr result (StartsWith out.new out.old) }
{
    let binders = ty.binders.as_slice();
    let mut inside = depth;
    let mut next = place;
    for binder in binders {
        next = append_binder(sig, inside, marks, next, binder, out)?;
        inside = deeper(inside)?;
    }
    out.append(sig.family_name(ty.family).as_bytes())?;
    append_args(sig, inside, &ty.args, out)?;
    Ok(next)
}

// Adds a binder, whose own mark stands at this place and those of its type after it.
#[cycle(append_type)]
fn append_binder(
    sig: &Signature,
    depth: u32,
    marks: &[bool],
    place: usize,
    ty: &Ty,
    out: &mut Bytes,
) -> Result<usize, NoMemory>
    requires printable { IsPrintableType sig.now depth (type_of ty.now) }
    requires place { place < length marks.now }
    requires marks { HaveAt marks.now (place + 1) (marks_of (type_of ty.now)) }
    ensures place { IfOk result (λ after. after ≡ place + 1 + length (marks_of (type_of ty.now))) }
    ensures ok { OnOk result (out.new ≡ out.old ++ binder_text sig.now depth (slice_index_or marks.now place false) (type_of ty.now)) }
    ensures err { OnErr result (StartsWith out.new out.old) }
{
    if marks[place] {
        out.push(b'{')?;
        append_variable(depth, out)?;
        out.push(b':')?;
        let after = append_type(sig, depth, marks, place + 1, ty, out)?;
        out.append(b"} ")?;
        return Ok(after);
    }
    let after = append_left(sig, depth, marks, place + 1, ty, out)?;
    out.append(b" -> ")?;
    Ok(after)
}

// Adds the left side of an arrow, in parentheses where it has binders.
#[cycle(append_type)]
fn append_left(
    sig: &Signature,
    depth: u32,
    marks: &[bool],
    place: usize,
    ty: &Ty,
    out: &mut Bytes,
) -> Result<usize, NoMemory>
    requires printable { IsPrintableType sig.now depth (type_of ty.now) }
    requires marks { HaveAt marks.now place (marks_of (type_of ty.now)) }
    ensures place { IfOk result (λ after. after ≡ place + length (marks_of (type_of ty.now))) }
    ensures ok { OnOk result (out.new ≡ out.old ++ left_text sig.now depth (type_of ty.now)) }
    ensures err { OnErr result (StartsWith out.new out.old) }
{
    if !is_function(ty) {
        return append_type(sig, depth, marks, place, ty, out);
    }
    out.push(b'(')?;
    let after = append_type(sig, depth, marks, place, ty, out)?;
    out.push(b')')?;
    Ok(after)
}

// Whether a type has binders.
#[tactic(auto, using(crate::proofs::TextSteps::binders_counted))]
fn is_function(ty: &Ty) -> bool
    ensures { result ≡ has_binders (type_of ty.now) }
{
    ty.binders.len() > 0
}

// Under one more binder.
fn deeper(depth: u32) -> Result<u32, NoMemory>
    ensures { IfOk result (λ inside. inside ≡ depth + 1) }
{
    match depth.checked_add(1) {
        None => Err(NoMemory),
        Some(inside) => Ok(inside),
    }
}
