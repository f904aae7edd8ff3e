//! Ends over a reader and a writer of std. They tell nothing of their content: this is where
//! the outside is trusted.

ghost use Rattle.std.specs.Prelude.{◌≡◌, ◌≤◌, None, length, IfOk};
ghost use Rattle.std.specs.Io.KnownBytes.{ReadConsumes, WriteAppends};
ghost use Rattle.run_io.specs.Causes.{HasCause, ZeroHasCause};
ghost use Rattle.run_io.specs.Counts.{faults_after, zeros_after_write};

use crate::counting::counted_zero;
use crate::sink::Sink;
use crate::source::{Failed, Source};
use std::io::{Read, Write};

/// A source over a reader of std. It counts each error of the reader.
#[derive(Drop)]
pub struct StdSource<R: Read> {
    reader: R,
    faults: u64,
}

impl<R: Read> StdSource<R> {
    /// A source over this reader.
    pub fn new(reader: R) -> StdSource<R>
        ensures { result ≡ record { reader = reader; faults = 0 } }
    {
        StdSource { reader, faults: 0 }
    }
}

impl<R: Read> Source for StdSource<R> {
    ghost left = { λ _. None };

    ghost faults = { λ s. s.faults };

    /// Reads once from the reader, straight into the buffer.
    fn read(&mut self, buf: &mut [u8]) -> Result<usize, Failed>
        ensures bound { IfOk result (λ count. count ≤ length buf.new) }
        ensures bytes { ReadConsumes None None result buf.new }
        ensures cause { HasCause self.old.faults self.new.faults result }
        ensures passed { ReadConsumes (R.remaining self.old.reader) (R.remaining self.new.reader) result buf.new }
        ensures faults { self.new.faults ≡ faults_after self.old.faults result }
    {
        match self.reader.read(buf) {
            Ok(count) => Ok(count),
            Err(_) => {
                self.faults = self.faults.saturating_add(1);
                Err(Failed)
            }
        }
    }
}

/// A sink over a writer of std. It counts each error of the writer, and each answer of 0 for a
/// piece that isn't empty.
#[derive(Drop)]
pub struct StdSink<W: Write> {
    writer: W,
    faults: u64,
    zeros: u64,
}

impl<W: Write> StdSink<W> {
    /// A sink over this writer.
    pub fn new(writer: W) -> StdSink<W>
        ensures { result ≡ record { writer = writer; faults = 0; zeros = 0 } }
    {
        StdSink {
            writer,
            faults: 0,
            zeros: 0,
        }
    }
}

impl<W: Write> Sink for StdSink<W> {
    ghost held = { λ _. None };

    ghost faults = { λ s. s.faults };

    ghost zeros = { λ s. s.zeros };

    /// Writes once to the writer, straight from the piece.
    fn write(&mut self, bytes: &[u8]) -> Result<usize, Failed>
        ensures bound { IfOk result (λ count. count ≤ length bytes.now) }
        ensures bytes { WriteAppends None None result bytes.now }
        ensures cause { HasCause self.old.faults self.new.faults result }
        ensures zero { ZeroHasCause self.old.zeros self.new.zeros (length bytes.now) result }
        ensures passed { WriteAppends (W.contents self.old.writer) (W.contents self.new.writer) result bytes.now }
        ensures faults { self.new.faults ≡ faults_after self.old.faults result }
        ensures zeros { self.new.zeros ≡ zeros_after_write self.old.zeros (length bytes.now) result }
    {
        match self.writer.write(bytes) {
            Ok(count) => {
                self.zeros = counted_zero(self.zeros, bytes.len(), count);
                Ok(count)
            }
            Err(_) => {
                self.faults = self.faults.saturating_add(1);
                Err(Failed)
            }
        }
    }
}
