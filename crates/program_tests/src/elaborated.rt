//! What is answered for a text by its program.

use crate::programs::{order_text, printed_text, read_back_text};
use crate::refusals::{Refusal, program_of, refusal_text};
use basics::{Bytes, NoMemory};
use std::alloc::Global;
use test_rows::{Answers, written};

/// What is asked of a text.
#[derive(Clone, Copy)]
pub(crate) enum Elaborated {
    /// The fault of a text in which `^` stands before the place of the fault and is no part of the text.
    MarkedFault,
    /// How many theorems it has, or its fault.
    Theorems,
    /// The order of its rules, and the constructors of its first family.
    Order,
    /// The name of its last constant and the type of that.
    Printed,
    /// The type of the last constant, if what is printed of it reads back. It stands after a `#`, which is no
    /// part of the text, and its end is left out.
    ReadBack,
}

impl Answers for Elaborated {
    fn answer(&self, alloc: Global, given: &str) -> Result<Bytes, NoMemory> {
        match self {
            Elaborated::MarkedFault => marked_answer(alloc, given),
            Elaborated::Theorems => theorems_answer(alloc, given),
            Elaborated::Order => order_answer(alloc, given),
            Elaborated::Printed => printed_answer(alloc, given),
            Elaborated::ReadBack => read_back_answer(alloc, given),
        }
    }
}

fn theorems_answer(alloc: Global, given: &str) -> Result<Bytes, NoMemory> {
    let text = written(alloc, given)?;
    match program_of(alloc, text.as_slice()) {
        Ok(program) => {
            let count = program.theorems.len();
            let text = format!(in alloc; "{count} theorems")?;
            Bytes::from_slice(alloc, text.as_bytes())
        },
        Err(fault) => refusal_text(alloc, fault),
    }
}

/// A text without its mark, and the place where the mark stood.
fn unmarked(alloc: Global, given: &str) -> Result<(Bytes, usize), NoMemory> {
    let mut text = Bytes::new(alloc);
    let mut place = 0;
    for byte in given.bytes() {
        if byte == b'^' {
            place = text.len();
        } else {
            text.push(byte)?;
        }
    }
    Ok((text, place))
}

/// The name of the fault that stands at the mark.
fn marked_answer(alloc: Global, given: &str) -> Result<Bytes, NoMemory> {
    let (text, place) = unmarked(alloc, given)?;
    let found = match program_of(alloc, text.as_slice()) {
        Ok(_) => return Bytes::from_slice(alloc, b"accepted"),
        Err(fault) => refusal_text(alloc, fault)?,
    };
    let end = format!(in alloc; "({place})")?;
    match found.as_slice().strip_suffix(end.as_bytes()) {
        Some(name) => Bytes::from_slice(alloc, name),
        None => Ok(found),
    }
}

fn order_answer(alloc: Global, given: &str) -> Result<Bytes, NoMemory> {
    let text = written(alloc, given)?;
    match program_of(alloc, text.as_slice()) {
        Ok(program) => order_text(alloc, &program.rules),
        Err(fault) => refusal_text(alloc, fault),
    }
}

fn printed_answer(alloc: Global, given: &str) -> Result<Bytes, NoMemory> {
    let text = written(alloc, given)?;
    match program_of(alloc, text.as_slice()) {
        Ok(program) => printed_text(alloc, &program.sig),
        Err(fault) => refusal_text(alloc, fault),
    }
}

fn read_back_answer(alloc: Global, given: &str) -> Result<Bytes, NoMemory> {
    let (before, ty) = given.split_once('#').unwrap_or((given, ""));
    read_back_text(alloc, before.as_bytes(), ty.as_bytes())
}
