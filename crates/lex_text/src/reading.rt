//! Where a run of characters ends: a name, a number or a comment.
//! Places are numbers of bytes, and a character begins at each that is passed here, or the text ends.

ghost use Rattle.std.specs.Prelude.{◌≡◌, ℕ, ◌+◌, ◌<◌, ◌≤◌, ◌↔◌, IsTrue, length, MatchOption};
ghost use Rattle.std.specs.Char.{len_utf8};
ghost use Rattle.unicode_ident.specs.Ident.{is_xid_continue};
ghost use Rattle.lex_text.specs.Reading.{from_place, IsPlace, Reads, Belongs, Passes, StopsBefore};

use crate::run::Run;

/// The character that begins at the place.
pub(crate) fn character_at(text: &str, place: usize) -> char
    requires boundary { IsPlace text.now place }
    requires some_left { place < length text.now }
    ensures { Reads text.now place result (place + len_utf8 result) }
{
    match text[place..].chars().next() {
        Some(character) => character,
        None => unreachable!(),
    }
}

/// Whether the character may continue a name.
fn may_continue(character: char) -> bool
    ensures { result ≡ is_xid_continue character }
{
    // ASCII needs no table
    if character.is_ascii() {
        character.is_ascii_alphanumeric() || character == '_'
    } else {
        unicode_ident::is_xid_continue(character)
    }
}

/// Whether the character goes on with such a run.
fn belongs(run: Run, character: char) -> bool
    ensures { IsTrue result ↔ Belongs run character }
{
    match run {
        Run::Name => may_continue(character),
        Run::Digits => character.is_ascii_digit(),
        Run::Comment => character != '\n',
    }
}

/// The place after the character here, if that goes on with the run.
fn step(run: Run, text: &str, place: usize) -> Option<usize>
    requires { IsPlace text.now place }
    ensures { MatchOption result (StopsBefore (Belongs run) (from_place text.now place))
        (λ next. Passes (Belongs run) text.now place next × (place < next)) }
{
    if place == text.len() {
        return None;
    }
    let character = character_at(text, place);
    if belongs(run, character) {
        Some(place + character.len_utf8())
    } else {
        None
    }
}

/// The place where the run that begins here ends.
pub(crate) fn end_of_run(run: Run, text: &str, start: usize) -> usize
    requires { IsPlace text.now start }
    ensures passes { Passes (Belongs run) text.now start result }
    ensures stops { StopsBefore (Belongs run) (from_place text.now result) }
{
    let mut place = start;
    while let Some(next) = step(run, text, place) {
        place = next;
    }
    place
}
