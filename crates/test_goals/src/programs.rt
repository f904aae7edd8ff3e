//! Programs from text.

ghost use Rattle.std.specs.Prelude.{IfSome};
ghost use Rattle.rule_sets.specs.Refusals.{IsOver};
ghost use Rattle.file_elab.specs.Theorems.{AreFormed};

use basics::{Name, NoMemory};
use file_elab::{Program, elaborate};
use file_syntax::parse;
use lex_text::tokens::tokens;
use rule_sets::Sets;
use std::alloc::Global;

/// The program of a text, if it is one.
pub fn program_of(alloc: Global, bytes: &[u8]) -> Option<Program>
    ensures theorems { IfSome result (λ program. AreFormed program.sig program.theorems) }
    ensures rules { IfSome result (λ program. IsOver program.sig program.rules) }
{
    if bytes.len() > 100_000_000 {
        return None;
    }
    let Ok(cut) = tokens(alloc, bytes) else {
        return None;
    };
    let Ok(tree) = parse(alloc, bytes, &cut) else {
        return None;
    };
    match elaborate(alloc, bytes, &tree) {
        Ok(program) => Some(program),
        Err(_) => None,
    }
}

/// The set of the rules that name none.
///
/// # Errors
///
/// `NoMemory` where memory runs out.
pub fn default_sets(alloc: Global) -> Result<Sets, NoMemory> {
    let mut sets = Sets::new(alloc);
    sets.push(Name::from_slice(alloc, b"default")?)?;
    Ok(sets)
}
