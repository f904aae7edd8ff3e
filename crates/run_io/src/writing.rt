//! Writing a piece whole.

ghost use Rattle.std.specs.Prelude.{◌≡◌, ◌≤◌, [], IsOk, IsErrOf, OnOk, OnErr};
ghost use Rattle.std.specs.Io.KnownBytes.{Appends};
ghost use Rattle.run_io.specs.Causes.{Rose};
ghost use Rattle.run_io.specs.Moves.{AppendsPrefix};

use crate::sink::Sink;
use crate::source::Failed;

/// Why a piece was not written whole.
#[derive(Clone, Copy, Debug, PartialEq, Eq)]
pub enum WriteEnd {
    /// The sink failed.
    Fault,
    /// The sink took nothing of what was left, which wasn't empty.
    Took0,
}

/// Writes a piece whole. After a refusal the sink took a prefix of it. Nothing is asked of the sink
/// for an empty piece. It takes no memory.
///
/// # Errors
///
/// `Fault` where the sink failed, and `Took0` where it took nothing of what was left.
pub fn write_piece<K: Sink>(sink: &mut K, bytes: &[u8]) -> Result<(), WriteEnd>
    ensures whole { OnOk result (Appends (K.held sink.old) (K.held sink.new) bytes.now) }
    ensures prefix { OnErr result (AppendsPrefix (K.held sink.old) (K.held sink.new) bytes.now) }
    ensures empty { bytes.now ≡ [] → IsOk result × (sink.new ≡ sink.old) }
    ensures faults_later { K.faults sink.old ≤ K.faults sink.new }
    ensures zeros_later { K.zeros sink.old ≤ K.zeros sink.new }
    ensures fault { IsErrOf result WriteEnd.Fault → Rose (K.faults sink.old) (K.faults sink.new) }
    ensures took_0 { IsErrOf result WriteEnd.Took0 → Rose (K.zeros sink.old) (K.zeros sink.new) }
{
    let mut rest = bytes;
    while !rest.is_empty() {
        match sink.write(rest) {
            Ok(0) => return Err(WriteEnd::Took0),
            Ok(count) => rest = &rest[count..],
            Err(Failed) => return Err(WriteEnd::Fault),
        }
    }
    Ok(())
}
