//! Laws, each the contract of a function that does nothing.

ghost use Rattle.printed_tokens.specs.Laws.{PrintedTypesAreTheirTokens};

/// A law: a printed type is cut into these tokens.
pub fn printed_types_are_their_tokens()
    ensures { PrintedTypesAreTheirTokens }
{}
