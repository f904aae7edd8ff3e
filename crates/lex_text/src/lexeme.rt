//! The longest token at a place. Its first two characters tell its kind.

ghost use Rattle.std.specs.Prelude.{◌≡◌, ℕ, ◌+◌, ◌<◌, length, MatchOption};
ghost use Rattle.unicode_ident.specs.Ident.{is_xid_start};
ghost use Rattle.lex_text.specs.declared.mark.Mark.{Mark};
ghost use Rattle.lex_text.specs.Reading.{from_place, IsPlace, Reads, IsTokenAt, BeginNoToken, IsSign};

use crate::mark::Mark;
use crate::reading::{character_at, end_of_run};
use crate::run::Run;

/// Whether the character may start a name.
fn may_start(character: char) -> bool
    ensures { result ≡ is_xid_start character }
{
    // ASCII needs no table
    if character.is_ascii() {
        character.is_ascii_alphabetic()
    } else {
        unicode_ident::is_xid_start(character)
    }
}

/// The kind of a token of one character.
fn sign_of(character: char) -> Option<Mark>
    ensures { MatchOption result ((mark : Mark) → IsSign mark character → ⊥) (λ mark. IsSign mark character) }
{
    match character {
        ':' => Some(Mark::Colon),
        '.' => Some(Mark::Dot),
        '=' => Some(Mark::Equals),
        '(' => Some(Mark::LParen),
        ')' => Some(Mark::RParen),
        '{' => Some(Mark::LBrace),
        '}' => Some(Mark::RBrace),
        '[' => Some(Mark::LBracket),
        ']' => Some(Mark::RBracket),
        _ => None,
    }
}

/// The arrow or the number that begins with the minus here, by its kind and its end.
fn minus_at(text: &str, start: usize) -> Option<(Mark, usize)>
    requires boundary { IsPlace text.now start }
    requires minus { Reads text.now start 45 (start + 1) }
    ensures { MatchOption result (BeginNoToken (from_place text.now start)) (λ found. IsTokenAt text.now start found.0 found.1) }
{
    let place = start + 1;
    if place == text.len() {
        return None;
    }
    let character = character_at(text, place);
    if character == '>' {
        Some((Mark::Arrow, place + 1))
    } else if character.is_ascii_digit() {
        Some((Mark::Number, end_of_run(Run::Digits, text, place)))
    } else {
        None
    }
}

/// The name, the number or the arrow that begins with this character, by its kind and its end.
/// `next` is the place after the character.
fn long_at(text: &str, start: usize, first: char, next: usize) -> Option<(Mark, usize)>
    requires boundary { IsPlace text.now start }
    requires first { Reads text.now start first next }
    requires no_sign { (mark : Mark) → IsSign mark first → ⊥ }
    ensures { MatchOption result (BeginNoToken (from_place text.now start)) (λ found. IsTokenAt text.now start found.0 found.1) }
{
    if first == '-' {
        minus_at(text, start)
    } else if first == '_' {
        Some((Mark::Var, end_of_run(Run::Name, text, next)))
    } else if first.is_ascii_digit() {
        Some((Mark::Number, end_of_run(Run::Digits, text, start)))
    } else if may_start(first) {
        Some((Mark::Word, end_of_run(Run::Name, text, next)))
    } else {
        None
    }
}

/// The longest token that begins at the place, by its kind and its end.
pub(crate) fn lexeme_at(text: &str, start: usize) -> Option<(Mark, usize)>
    requires boundary { IsPlace text.now start }
    requires some_left { start < length text.now }
    ensures { MatchOption result (BeginNoToken (from_place text.now start)) (λ found. IsTokenAt text.now start found.0 found.1) }
{
    let first = character_at(text, start);
    let next = start + first.len_utf8();
    match sign_of(first) {
        Some(mark) => Some((mark, next)),
        None => long_at(text, start, first, next),
    }
}
