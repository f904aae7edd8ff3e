//! Why a text is no file.

/// Why tokens give no file.
#[derive(Clone, Copy, Debug, PartialEq, Eq)]
pub enum ParseFault {
    /// No file has the token at this place after the tokens before it. The end of the tokens has the
    /// text's length as its place.
    Expected(u32),
    /// What opens at this place would be nested too deep.
    TooDeep(u32),
    /// Memory ran out. No clause says when this comes.
    NoMemory,
}
