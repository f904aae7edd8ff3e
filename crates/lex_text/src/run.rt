//! Runs of characters.

/// What the characters of a run have in common.
#[derive(Clone, Copy)]
pub(crate) enum Run {
    /// Each may continue a name.
    Name,
    /// Each is an ASCII digit.
    Digits,
    /// None is a line feed.
    Comment,
}
