//! Sinks for bytes.

ghost use Rattle.std.specs.Prelude.{ℕ, List, ◌≤◌, IfOk, Option, length};
ghost use Rattle.std.specs.Io.KnownBytes.{WriteAppends};
ghost use Rattle.run_io.specs.Causes.{HasCause, ZeroHasCause};

use crate::source::Failed;

/// A sink for bytes. It holds bytes, where it tells them, counts its faults, and counts its
/// answers of 0 for a piece that isn't empty.
pub trait Sink {
    ghost held: { Self → Option (List ℕ) };

    ghost faults: { Self → ℕ };

    ghost zeros: { Self → ℕ };

    /// Takes bytes from the prefix of the piece and answers how many. `Failed` comes only where the
    /// count of faults rose, and then it took nothing.
    fn write(&mut self, bytes: &[u8]) -> Result<usize, Failed>
        ensures bound { IfOk result (λ count. count ≤ length bytes.now) }
        ensures bytes { WriteAppends (held self.old) (held self.new) result bytes.now }
        ensures cause { HasCause (faults self.old) (faults self.new) result }
        ensures zero { ZeroHasCause (zeros self.old) (zeros self.new) (length bytes.now) result };
}
