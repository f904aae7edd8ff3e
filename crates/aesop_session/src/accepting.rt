//! From bytes to their program, in three passes: the tokens, the tree and the program. Each pass refuses what is its own to refuse.

ghost use Rattle.std.specs.Prelude.{◌≡◌, ◌<◌, ◌^◌, IfOk, IfErr, length, All};
ghost use Rattle.lex_text.specs.Tokens.{TokensOf, IsWithin};
ghost use Rattle.rule_sets.specs.Refusals.{IsOver};
ghost use Rattle.file_elab.specs.Programs.{IsParsedFrom};
ghost use Rattle.file_elab.specs.ProgramViews.{program_of};
ghost use Rattle.file_elab.specs.Theorems.{AreFormed};
ghost use Rattle.aesop_session.specs.Refusals.{IsAccepted};
ghost use Rattle.aesop_session.specs.Inputs.{IsUnserved};

use crate::refusal::{Refusal, RefusalKind};
use file_elab::{ElabFault, Program, elaborate};
use file_syntax::{ParseFault, parse};
use file_trees::FileTree;
use lex_text::tokens::tokens;
use lex_text::{LexFault, Tokens};
use std::alloc::Global;

/// Why no program is served.
#[derive(Clone, Copy, Debug, PartialEq, Eq)]
pub(crate) enum Unserved {
    /// The bytes are refused.
    Refused(Refusal),
    /// Memory ran out.
    NoMemory,
}

/// The refusal of this kind at a place.
fn refused(kind: RefusalKind, place: u32) -> Unserved
    ensures { result ≡ Unserved.Refused (record { place = place; kind = kind }) }
{
    Unserved::Refused(Refusal { place, kind })
}

/// The tokens of the bytes.
fn cut(alloc: Global, bytes: &[u8]) -> Result<Tokens, Unserved>
    requires { length bytes.now < 2 ^ 32 }
    ensures cut { IfOk result (λ cut. TokensOf bytes.now cut.items) }
    ensures end { IfOk result (λ cut. cut.end ≡ length bytes.now) }
    ensures within { IfOk result (λ cut. All (IsWithin (length bytes.now)) cut.items) }
    ensures why { IfErr result (IsUnserved bytes.now) }
{
    match tokens(alloc, bytes) {
        Ok(list) => Ok(list),
        Err(LexFault::NotUtf8(place)) => Err(refused(RefusalKind::NotUtf8, place)),
        Err(LexFault::BadChar(place)) => Err(refused(RefusalKind::BadCharacter, place)),
        Err(LexFault::LongName(place)) => Err(refused(RefusalKind::LongName, place)),
        Err(LexFault::NoMemory) => Err(Unserved::NoMemory),
    }
}

/// The tree of the bytes.
fn parsed(alloc: Global, bytes: &[u8]) -> Result<FileTree, Unserved>
    requires { length bytes.now < 2 ^ 32 }
    ensures parsed { IfOk result (λ tree. IsParsedFrom bytes.now tree.decls) }
    ensures why { IfErr result (IsUnserved bytes.now) }
{
    let list = match cut(alloc, bytes) {
        Ok(list) => list,
        Err(why) => return Err(why),
    };
    match parse(alloc, bytes, &list) {
        Ok(tree) => Ok(tree),
        Err(ParseFault::Expected(place)) => Err(refused(RefusalKind::Expected, place)),
        Err(ParseFault::TooDeep(place)) => Err(refused(RefusalKind::TooDeep, place)),
        Err(ParseFault::NoMemory) => Err(Unserved::NoMemory),
    }
}

/// The program of the bytes, or why there is none: what is wrong with them first.
pub(crate) fn accepted(alloc: Global, bytes: &[u8]) -> Result<Program, Unserved>
    requires { length bytes.now < 2 ^ 32 }
    ensures accepted { IfOk result (λ program. IsAccepted bytes.now (program_of program)) }
    ensures theorems { IfOk result (λ program. AreFormed program.sig program.theorems) }
    ensures rules { IfOk result (λ program. IsOver program.sig program.rules) }
    ensures why { IfErr result (IsUnserved bytes.now) }
{
    let tree = match parsed(alloc, bytes) {
        Ok(tree) => tree,
        Err(why) => return Err(why),
    };
    match elaborate(alloc, bytes, &tree) {
        Ok(program) => Ok(program),
        Err(ElabFault::Taken(place)) => Err(refused(RefusalKind::Taken, place)),
        Err(ElabFault::TooMany(place)) => Err(refused(RefusalKind::TooMany, place)),
        Err(ElabFault::Unknown(place)) => Err(refused(RefusalKind::Unknown, place)),
        Err(ElabFault::Redex(place)) => Err(refused(RefusalKind::Redex, place)),
        Err(ElabFault::IllTyped(place)) => Err(refused(RefusalKind::IllTyped, place)),
        Err(ElabFault::BadRule(place)) => Err(refused(RefusalKind::BadRule, place)),
        Err(ElabFault::NoMemory) => Err(Unserved::NoMemory),
    }
}
