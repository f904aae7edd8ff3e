//! Heads.

/// What a spine begins with: a bound variable, by the number of binders between it and its own, a
/// constant, or a metavariable, by the number of its goal.
#[derive(Clone, Copy, Debug, PartialEq, Eq)]
pub enum Head {
    Bound(u32),
    Const(u32),
    Meta(u32),
}
