//! Why a text has no tokens.

use std::alloc::AllocError;

/// Why a text has no tokens, with the place in bytes.
#[derive(Clone, Copy, Debug, PartialEq, Eq)]
pub enum LexFault {
    /// The first byte that begins no valid character.
    NotUtf8(u32),
    /// A character that begins no token.
    BadChar(u32),
    /// A word or a variable of more than 255 bytes.
    LongName(u32),
    /// Memory ran out.
    NoMemory,
}

impl From<AllocError> for LexFault {
    ghost use Rattle.std.specs.Prelude.{◌≡◌};
    ghost use Rattle.lex_text.specs.declared.lex_fault.LexFault.TheVariants.{NoMemory};

    ghost from_gives = { λ _ fault. fault ≡ NoMemory };

    fn from(_refusal: AllocError) -> LexFault {
        LexFault::NoMemory
    }
}
