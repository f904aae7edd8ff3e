//! The bytes of a file.

ghost use Rattle.std.specs.Prelude.{◌≡◌};
ghost use Rattle.elab_terms.specs.Names.{text_at};

use file_trees::Span;

/// The bytes of a span. Those beyond the end of the file are left out.
pub fn text<'a>(source: &'a [u8], span: Span) -> &'a [u8]
    ensures { result.now ≡ text_at source.now span }
{
    let start = span.start as usize;
    let end = span.end as usize;
    if start >= source.len() || end <= start {
        return &[];
    }
    if end > source.len() {
        return &source[start..];
    }
    &source[start..end]
}
