//! Parsing a whole file.

ghost use Rattle.std.specs.Prelude.{◌≡◌, ◌≤◌, ◌<◌, ◌^◌, IfOk, IfErr, List, ℕ, length, All};
ghost use Rattle.lex_text.specs.Tokens.{IsWithin, TokensOf};
ghost use Rattle.file_syntax.specs.Files.{IsParsed, IsFaultOf, IsOneFile};
ghost use Rattle.file_syntax.specs.Reading.{start};
ghost use Rattle.lex_text.specs.declared.token.Token.{Token};

use crate::nesting::Nesting;
use crate::parse_fault::ParseFault;
use crate::state::{Frames, State, StepFault, Top};
use crate::steps::step;
use crate::terminal::terminal_at;
use basics::limits::DEEPEST_NESTING;
use file_trees::{DeclTrees, FileTree};
use lex_text::{Token, Tokens};
use std::alloc::Global;

/// The tree of a file from the tokens of its text. `Expected` comes at the first token that no file
/// of the grammar has after the tokens before it, and `TooDeep` at the first parenthesis, brace or
/// bracket that some file has there and that would be the 257th that is open: whichever token is
/// first.
pub fn parse(alloc: Global, bytes: &[u8], toks: &Tokens) -> Result<FileTree, ParseFault>
    requires cut { TokensOf bytes.now toks.now.items }
    requires size { toks.now.end ≡ length bytes.now }
    requires within { All (IsWithin (length bytes.now)) toks.now.items }
    ensures parsed { IfOk result (λ file. IsParsed bytes.now toks.now.items file.decls) }
    ensures refused { IfErr result (IsFaultOf bytes.now toks.now.items toks.now.end) }
{
    parse_tokens(alloc, bytes, toks.items.as_slice(), toks.end)
}

/// The state before the first token.
fn start(alloc: Global) -> State
    ensures { result ≡ start }
{
    State {
        decls: DeclTrees::new(alloc),
        frames: Frames::new(alloc),
        top: Top::Between,
    }
}

/// The same of the tokens as a slice, with the place of their end.
fn parse_tokens(
    alloc: Global,
    bytes: &[u8],
    tokens: &[Token],
    end: u32,
) -> Result<FileTree, ParseFault>
    requires within { All (IsWithin (length bytes.now)) tokens.now }
    ensures parsed { IfOk result (λ file. IsParsed bytes.now tokens.now file.decls) }
    ensures refused { IfErr result (IsFaultOf bytes.now tokens.now end) }
{
    let mut state = start(alloc);
    let mut nesting = Nesting::new(alloc);
    for token in tokens {
        let terminal = terminal_at(bytes, token);
        match step(alloc, &mut state, terminal) {
            Ok(()) => (),
            Err(StepFault::Refused) => return Err(ParseFault::Expected(token.start)),
            Err(StepFault::NoMemory) => return Err(ParseFault::NoMemory),
        }
        if nesting.pass(terminal).is_err() {
            return Err(ParseFault::NoMemory);
        }
        if nesting.depth() > DEEPEST_NESTING {
            return Err(ParseFault::TooDeep(token.start));
        }
    }
    match state.top {
        Top::Between => Ok(FileTree { decls: state.decls }),
        _ => Err(ParseFault::Expected(end)),
    }
}

/// The tokens of a text are a file in one way at most.
pub fn a_file_has_one_tree()
    ensures { (bytes : List ℕ) (tokens : List Token) → IsOneFile bytes tokens }
{}
