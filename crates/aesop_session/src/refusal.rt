//! Why an input is refused.

ghost use Rattle.std.specs.Prelude.{◌≡◌, IfOk, string_bytes};
ghost use Rattle.aesop_session.specs.Refusals.{line_of};

use std::alloc::{AllocError, Global};

/// What is wrong with an input that is refused.
#[derive(Clone, Copy, Debug, PartialEq, Eq)]
pub enum RefusalKind {
    /// A byte begins no character.
    NotUtf8,
    /// A character begins no token.
    BadCharacter,
    /// A name is longer than 255 bytes.
    LongName,
    /// No file goes on with this token, or ends there.
    Expected,
    /// What opens is nested too deep.
    TooDeep,
    /// A name is taken, or a constructor is repeated.
    Taken,
    /// A limit is reached.
    TooMany,
    /// Nothing has the name that may stand there.
    Unknown,
    /// An abstraction is applied.
    Redex,
    /// A term has not the type that is wanted.
    IllTyped,
    /// A rule is not one of its builder.
    BadRule,
}

/// The first thing that is wrong with an input, and its place in bytes.
#[derive(Clone, Copy, Debug, PartialEq, Eq)]
pub struct Refusal {
    pub place: u32,
    pub kind: RefusalKind,
}

impl RefusalKind {
    ghost use Rattle.std.specs.Prelude.{◌≡◌};
    ghost use Rattle.aesop_session.specs.Refusals.{fault_word};

    /// The words for it.
    pub fn word(&self) -> &'static str
        ensures { result.now ≡ fault_word self.now }
    {
        match self {
            RefusalKind::NotUtf8 => "not utf-8",
            RefusalKind::BadCharacter => "bad character",
            RefusalKind::LongName => "long name",
            RefusalKind::Expected => "expected",
            RefusalKind::TooDeep => "too deep",
            RefusalKind::Taken => "taken",
            RefusalKind::TooMany => "too many",
            RefusalKind::Unknown => "unknown",
            RefusalKind::Redex => "redex",
            RefusalKind::IllTyped => "ill typed",
            RefusalKind::BadRule => "bad rule",
        }
    }
}

/// The line that is written for a refusal.
pub(crate) fn line_of(alloc: Global, refusal: Refusal) -> Result<String, AllocError>
    ensures { IfOk result (λ line. string_bytes line ≡ line_of refusal.kind refusal.place) }
{
    let place = refusal.place;
    let word = refusal.kind.word();
    let line = format!(in alloc; "refused at {place}: {word}\n")?;
    Ok(line)
}
