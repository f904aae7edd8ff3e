//! Ends in memory that fail where they are told to.

ghost use Rattle.std.specs.Prelude.{◌≡◌, ◌+◌, ◌-◌, ◌≤◌, ◌↔◌, [], ◌++◌, min, take, drop, length, IfOk, IsErr, IsOk, IsTrue, Contains};
ghost use Rattle.std.specs.Io.KnownBytes.{ReadConsumes, WriteAppends};
ghost use Rattle.run_io.specs.Causes.{HasCause, ZeroHasCause};
ghost use Rattle.run_io.specs.Counts.{counted, zeros_after};
ghost use Rattle.run_io.specs.MemoryEnds.{after_read, after_write};

use crate::counting::counted_zero;
use crate::sink::Sink;
use crate::source::{Failed, Source};
use crate::sure::{SureSink, SureSource};
use basics::{Bytes, Ids, NoMemory};
use std::alloc::Global;
use std::marker::Model;

/// A source of bytes in memory that fails at the calls that it is told to fail at, and gives at
/// most a piece at each other call.
#[derive(Drop)]
pub struct MemorySource {
    source: SureSource,
    piece: usize,
    failing: Ids,
    calls: u64,
    faults: u64,
}

impl Model for MemorySource {
    ghost use Rattle.std.specs.Prelude.{◌≤◌};
    ghost use Rattle.run_io.specs.MemoryEnds.{MemoryBytes};

    ghost Value = { MemoryBytes };

    ghost view = { λ s. record { left = s.source; piece = s.piece; failing = s.failing; calls = s.calls; faults = s.faults } };

    ghost invariant = { λ s. 1 ≤ s.piece };
}

impl MemorySource {
    /// A source of these bytes that gives at most `piece` at a call, and fails at the calls whose
    /// numbers, from 0, are listed in `failing`.
    pub fn new(bytes: Bytes, piece: usize, failing: Ids) -> MemorySource
        requires { 1 ≤ piece }
        ensures { result ≡ record { left = bytes; piece = piece; failing = failing; calls = 0; faults = 0 } }
    {
        MemorySource {
            source: SureSource::new(bytes),
            piece,
            failing,
            calls: 0,
            faults: 0,
        }
    }

    /// What is left.
    pub fn left(&self) -> &[u8]
        ensures { result.now ≡ self.now.left }
    {
        self.source.left()
    }
}

impl Source for MemorySource {
    ghost use Rattle.std.specs.Prelude.{Some};

    ghost left = { λ s. Some s.left };

    ghost faults = { λ s. s.faults };

    /// Fails where this call's number is listed. Otherwise gives as many bytes as the least of the
    /// piece, the buffer's length and what is left. It takes no memory.
    fn read(&mut self, buf: &mut [u8]) -> Result<usize, Failed>
        ensures bound { IfOk result (λ count. count ≤ length buf.new) }
        ensures bytes { ReadConsumes (Some self.old.left) (Some self.new.left) result buf.new }
        ensures cause { HasCause self.old.faults self.new.faults result }
        ensures fails { IsErr result ↔ Contains self.old.failing self.old.calls }
        ensures count { IfOk result (λ count. count ≡ min self.old.piece (min (length buf.old) (length self.old.left))) }
        ensures after { self.new ≡ after_read self.old result }
    {
        let number = self.calls;
        self.calls = number.saturating_add(1);
        if is_listed(self.failing.as_slice(), number) {
            self.faults = self.faults.saturating_add(1);
            return Err(Failed);
        }
        let most = self.piece.min(buf.len());
        self.source.read(&mut buf[..most])
    }
}

/// A sink in memory that fails at the calls that it is told to fail at, and takes at most a piece
/// at each other call, while it has room.
#[derive(Drop)]
pub struct MemorySink {
    sink: SureSink,
    piece: usize,
    failing: Ids,
    calls: u64,
    faults: u64,
    zeros: u64,
}

impl Model for MemorySink {
    ghost use Rattle.run_io.specs.MemoryEnds.{MemoryRoom};

    ghost Value = { MemoryRoom };

    ghost view = { λ s. record { held = s.sink.held; room = s.sink.room; piece = s.piece; failing = s.failing; calls = s.calls; faults = s.faults; zeros = s.zeros } };
}

impl MemorySink {
    /// An empty sink with room for `room` bytes. It takes at most `piece` at a call, and fails at
    /// the calls whose numbers, from 0, are listed in `failing`.
    ///
    /// # Errors
    ///
    /// `NoMemory` where the room can't be had. No room takes no memory.
    pub fn new(
        alloc: Global,
        room: usize,
        piece: usize,
        failing: Ids,
    ) -> Result<MemorySink, NoMemory>
        ensures empty { IfOk result (λ sink. sink ≡ record { held = []; room = room; piece = piece; failing = failing; calls = 0; faults = 0; zeros = 0 }) }
        ensures no_room { room ≡ 0 → IsOk result }
    {
        Ok(MemorySink {
            sink: SureSink::with_room(alloc, room)?,
            piece,
            failing,
            calls: 0,
            faults: 0,
            zeros: 0,
        })
    }

    /// What it holds.
    pub fn held(&self) -> &[u8]
        ensures { result.now ≡ self.now.held }
    {
        self.sink.held()
    }
}

impl Sink for MemorySink {
    ghost use Rattle.std.specs.Prelude.{Some};

    ghost held = { λ s. Some s.held };

    ghost faults = { λ s. s.faults };

    ghost zeros = { λ s. s.zeros };

    /// Fails where this call's number is listed. Otherwise takes as many bytes as the least of the
    /// piece, the room that is left and the length of what it is given. It takes no memory.
    fn write(&mut self, bytes: &[u8]) -> Result<usize, Failed>
        ensures bound { IfOk result (λ count. count ≤ length bytes.now) }
        ensures bytes { WriteAppends (Some self.old.held) (Some self.new.held) result bytes.now }
        ensures cause { HasCause self.old.faults self.new.faults result }
        ensures zero { ZeroHasCause self.old.zeros self.new.zeros (length bytes.now) result }
        ensures fails { IsErr result ↔ Contains self.old.failing self.old.calls }
        ensures count { IfOk result (λ count. count ≡ min self.old.piece (min (self.old.room - length self.old.held) (length bytes.now))) }
        ensures after { self.new ≡ after_write self.old bytes.now result }
    {
        let number = self.calls;
        self.calls = number.saturating_add(1);
        if is_listed(self.failing.as_slice(), number) {
            self.faults = self.faults.saturating_add(1);
            return Err(Failed);
        }
        let most = self.piece.min(bytes.len());
        let count = self.sink.write(&bytes[..most])?;
        self.zeros = counted_zero(self.zeros, bytes.len(), count);
        Ok(count)
    }
}

/// Whether a call's number is listed. A listed number has 32 bits, so that a count of calls which
/// stands at its last value is none.
fn is_listed(ids: &[u32], number: u64) -> bool
    ensures { IsTrue result ↔ Contains ids.now number }
{
    ids.iter().any(|id| u64::from(*id) == number)
}
