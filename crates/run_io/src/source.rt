//! Sources of bytes.

ghost use Rattle.std.specs.Prelude.{ℕ, List, ◌≤◌, IfOk, Option, length};
ghost use Rattle.std.specs.Io.KnownBytes.{ReadConsumes};
ghost use Rattle.run_io.specs.Causes.{HasCause};

/// The end failed at this call.
#[derive(Clone, Copy, Debug, PartialEq, Eq)]
pub struct Failed;

/// A source of bytes. It has bytes left, where it tells them, and counts its faults.
pub trait Source {
    ghost left: { Self → Option (List ℕ) };

    ghost faults: { Self → ℕ };

    /// Puts bytes at the prefix of `buf` and answers how many. They are the prefix of what was left.
    /// An answer of 0 for a buffer that isn't empty is the end of the input. `Failed` comes only
    /// where the count of faults rose, and then what is left stays.
    fn read(&mut self, buf: &mut [u8]) -> Result<usize, Failed>
        ensures bound { IfOk result (λ count. count ≤ length buf.new) }
        ensures bytes { ReadConsumes (left self.old) (left self.new) result buf.new }
        ensures cause { HasCause (faults self.old) (faults self.new) result };
}
