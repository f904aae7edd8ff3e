//! Writing a text whole.

ghost use Rattle.std.specs.Prelude.{◌≡◌, ◌≤◌, ◌⊎◌, OnOk, OnErr};
ghost use Rattle.std.specs.Io.KnownBytes.{Appends};
ghost use Rattle.run_io.specs.Causes.{Rose};
ghost use Rattle.run_io.specs.Moves.{AppendsPrefix};

use run_io::{Sink, WriteEnd, write_piece};

/// Why a text was not written whole.
#[derive(Clone, Copy, Debug, PartialEq, Eq)]
pub(crate) enum WriteFault {
    /// The sink failed, or took nothing of a piece.
    Write,
    /// Memory ran out.
    NoMemory,
}

/// Writes a piece whole, or tells that it was not.
pub(crate) fn write_text<K: Sink>(sink: &mut K, bytes: &[u8]) -> Result<(), WriteFault>
    ensures ok { OnOk result (Appends (K.held sink.old) (K.held sink.new) bytes.now) }
    ensures err { OnErr result (AppendsPrefix (K.held sink.old) (K.held sink.new) bytes.now) }
    ensures cause { OnErr result (Rose (K.faults sink.old) (K.faults sink.new) ⊎ Rose (K.zeros sink.old) (K.zeros sink.new)) }
    ensures stop { OnErr result (result ≡ Err WriteFault.Write) }
    ensures faults_later { K.faults sink.old ≤ K.faults sink.new }
    ensures zeros_later { K.zeros sink.old ≤ K.zeros sink.new }
{
    match write_piece(sink, bytes) {
        Ok(()) => Ok(()),
        Err(WriteEnd::Fault) => Err(WriteFault::Write),
        Err(WriteEnd::Took0) => Err(WriteFault::Write),
    }
}
