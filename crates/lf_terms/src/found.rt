//! What a name stands for.

/// What a signature has under a name: a family or a constant, by its number, or nothing.
#[derive(Clone, Copy, Debug, PartialEq, Eq)]
pub enum Found {
    Family(u32),
    Const(u32),
    Absent,
}
