//! Cutting a text into tokens.

ghost use Rattle.std.specs.Prelude.{◌≡◌, ◌≢◌, ℕ, ◌^◌, ◌<◌, ◌↔◌, IsTrue, IfOk, IfErr, List, length, slice_index, All};
ghost use Rattle.std.specs.Str.{chars};
ghost use Rattle.lex_text.specs.Characters.{NotUtf8At, IsSeparator};
ghost use Rattle.lex_text.specs.Tokens.{TokensOf, WrongText, Cut, bad_character, long_name, IsWithin};
ghost use Rattle.lex_text.specs.Reading.{IsPlace, IsNext, IsFaultAt, IsShortSize};

use crate::lex_fault::LexFault;
use crate::lexeme::lexeme_at;
use crate::mark::Mark;
use crate::reading::end_of_run;
use crate::run::Run;
use crate::token::Token;
use crate::token_list::{TokenList, Tokens};
use basics::limits::LONGEST_NAME;
use std::alloc::Global;
use std::str;

/// Whether the byte is a space, a tab, a carriage return or a line feed.
fn is_separator(byte: u8) -> bool
    ensures { IsTrue result ↔ IsSeparator byte }
{
    byte == b' ' || byte == b'\t' || byte == b'\r' || byte == b'\n'
}

/// Whether a token of this kind may have so many bytes.
fn is_short(mark: Mark, size: usize) -> bool
    ensures { IsTrue result ↔ IsShortSize mark size }
{
    match mark {
        Mark::Word | Mark::Var => size <= LONGEST_NAME,
        _ => true,
    }
}

/// The token at the place, which begins with no separator and no comment, or the fault there.
fn token_at(text: &str, start: usize) -> Result<Token, LexFault>
    requires boundary { IsPlace text.now start }
    requires some_left { start < length text.now }
    requires small { length text.now < 2 ^ 32 }
    requires no_separator { IsSeparator (slice_index text.now start) → ⊥ }
    requires no_comment { slice_index text.now start ≢ 37 }
    ensures token { IfOk result (IsNext text.now start) }
    ensures fault { IfErr result (IsFaultAt text.now start) }
{
    let Some((mark, end)) = lexeme_at(text, start) else {
        return Err(LexFault::BadChar(start as u32));
    };
    if !is_short(mark, end - start) {
        return Err(LexFault::LongName(start as u32));
    }
    Ok(Token {
        mark,
        start: start as u32,
        end: end as u32,
    })
}

/// Cuts a text that is known to be UTF-8. It never answers `NotUtf8`.
fn cut(alloc: Global, text: &str) -> Result<Tokens, LexFault>
    requires { length text.now < 2 ^ 32 }
    ensures cut { IfOk result (λ cut. Cut 0 (chars text.now) cut.items) }
    ensures end { IfOk result (λ cut. cut.end ≡ length text.now) }
    ensures within { IfOk result (λ cut. All (IsWithin (length text.now)) cut.items) }
    ensures fault { IfErr result (IsFaultAt text.now 0) }
{
    let bytes = text.as_bytes();
    let mut items = TokenList::new(alloc);
    let mut place = 0;
    while place < bytes.len() {
        let byte = bytes[place];
        if is_separator(byte) {
            place += 1;
        } else if byte == b'%' {
            place = end_of_run(Run::Comment, text, place + 1);
        } else {
            let token = token_at(text, place)?;
            items.push(token)?;
            place = token.end as usize;
        }
    }
    Ok(Tokens {
        items,
        end: place as u32,
    })
}

/// Cuts a text into its tokens. The refusals are those of the text's first fault: bytes that are no
/// UTF-8 before anything else, then the first bad character or long name by place.
pub fn tokens(alloc: Global, bytes: &[u8]) -> Result<Tokens, LexFault>
    requires { length bytes.now < 2 ^ 32 }
    ensures cut { IfOk result (λ cut. TokensOf bytes.now cut.items) }
    ensures end { IfOk result (λ cut. cut.end ≡ length bytes.now) }
    ensures within { IfOk result (λ cut. All (IsWithin (length bytes.now)) cut.items) }
    ensures not_utf8 { (place : ℕ) → result ≡ Err (LexFault.NotUtf8 place) → NotUtf8At bytes.now place }
    ensures bad_char { (place : ℕ) → result ≡ Err (LexFault.BadChar place) → WrongText bytes.now (bad_character place) }
    ensures long_name { (place : ℕ) → result ≡ Err (LexFault.LongName place) → WrongText bytes.now (long_name place) }
{
    match str::from_utf8(bytes) {
        Ok(text) => cut(alloc, text),
        Err(error) => Err(LexFault::NotUtf8(error.valid_up_to() as u32)),
    }
}
