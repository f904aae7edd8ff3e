//! How the counts of an end go up.

ghost use Rattle.std.specs.Prelude.{◌≡◌};
ghost use Rattle.run_io.specs.Counts.{zeros_after};

/// The count of zeros after a sink took so many bytes of a piece of this size.
pub(crate) fn counted_zero(before: u64, size: usize, count: usize) -> u64
    ensures { result ≡ zeros_after before size count }
{
    if count == 0 && size > 0 {
        before.saturating_add(1)
    } else {
        before
    }
}
