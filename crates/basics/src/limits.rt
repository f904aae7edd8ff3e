//! The limits of the language and of its values, by name. Clauses have the same names in small letters.

/// Families and constants in a signature.
pub const MOST_SYMBOLS: u32 = 65_535;

/// Rules in a rule book, the two built-in ones among them.
pub const MOST_RULES: u32 = 10_002;

/// Theorems in a file.
pub const MOST_THEOREMS: usize = 10_000;

/// How deep a token may be nested in a file.
pub const DEEPEST_NESTING: u32 = 256;

/// Binders in a type of a file.
pub const MOST_BINDERS: usize = 1_000;

/// Bytes in a name.
pub const LONGEST_NAME: usize = 255;

/// Bytes in an input.
pub const MOST_INPUT: u32 = 4_194_304;

/// Each list and each text is shorter than this, and so is each number that a metavariable or a node has.
pub const LIST_LIMIT: u32 = 2_147_483_648;
