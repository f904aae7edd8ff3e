//! Places of parts of a text.

/// Where a part of a text starts and ends, in bytes. The byte at `end` is no part of it.
#[derive(Clone, Copy, Debug, PartialEq, Eq)]
pub struct Span {
    pub start: u32,
    pub end: u32,
}

/// Where a binder stands: the byte at which its bracket or brace opens, and the name that it binds.
#[derive(Clone, Copy, Debug, PartialEq, Eq)]
pub struct BinderSpan {
    pub opening: u32,
    pub name: Span,
}
