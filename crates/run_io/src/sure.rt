//! Ends in memory that never fail.

ghost use Rattle.std.specs.Prelude.{◌≡◌, ◌-◌, ◌≤◌, [], ◌++◌, min, take, drop, length, IfOk, IsOk};
ghost use Rattle.std.specs.Io.KnownBytes.{ReadConsumes, WriteAppends};
ghost use Rattle.run_io.specs.Causes.{HasCause, ZeroHasCause};
ghost use Rattle.run_io.specs.Counts.{zeros_after};

use crate::counting::counted_zero;
use crate::sink::Sink;
use crate::source::{Failed, Source};
use basics::{Bytes, NoMemory};
use std::alloc::Global;
use std::marker::Model;

/// A source of bytes in memory that never fails. A contract sees it as the bytes that it has left.
#[derive(Drop)]
pub struct SureSource {
    bytes: Bytes,
    given: usize,
}

impl Model for SureSource {
    ghost use Rattle.std.specs.Prelude.{ℕ, ◌≤◌, List, drop, length};

    ghost Value = { List ℕ };

    ghost view = { λ s. drop s.given s.bytes };

    ghost invariant = { λ s. s.given ≤ length s.bytes };
}

impl SureSource {
    /// A source of these bytes.
    pub fn new(bytes: Bytes) -> SureSource
        ensures { result ≡ bytes }
    {
        SureSource { bytes, given: 0 }
    }

    /// What is left.
    pub fn left(&self) -> &[u8]
        ensures { result.now ≡ self.now }
    {
        &self.bytes.as_slice()[self.given..]
    }
}

impl Source for SureSource {
    ghost use Rattle.std.specs.Prelude.{Some};

    ghost left = { λ s. Some s };

    ghost faults = { λ _. 0 };

    /// Gives as many bytes as the buffer has room for, or all that are left. It takes no memory.
    fn read(&mut self, buf: &mut [u8]) -> Result<usize, Failed>
        ensures bound { IfOk result (λ count. count ≤ length buf.new) }
        ensures bytes { ReadConsumes (Some self.old) (Some self.new) result buf.new }
        ensures cause { HasCause 0 0 result }
        ensures count { result ≡ Ok (min (length self.old) (length buf.old)) }
        ensures after { IfOk result (λ count. self.new ≡ drop count self.old) }
    {
        let count = copy_prefix(&self.bytes.as_slice()[self.given..], buf);
        self.given += count;
        Ok(count)
    }
}

/// Copies as many bytes as both have, and returns how many.
fn copy_prefix(from: &[u8], to: &mut [u8]) -> usize
    ensures count { result ≡ min (length from.now) (length to.old) }
    ensures copied { to.new ≡ take result from.now ++ drop result to.old }
{
    let count = from.len().min(to.len());
    to[..count].copy_from_slice(&from[..count]);
    count
}

/// A sink in memory that never fails. It has room for so many bytes, and takes nothing once it is
/// full. A contract sees the bytes that it holds, its room, and its count of zeros.
#[derive(Drop)]
pub struct SureSink {
    held: Vec<u8>,
    room: usize,
    zeros: u64,
}

impl Model for SureSink {
    ghost use Rattle.std.specs.Prelude.{◌≤◌, length, vec_capacity};
    ghost use Rattle.run_io.specs.SureRoom.{SureRoom};

    ghost Value = { SureRoom };

    ghost view = { λ s. record { held = s.held.items; room = s.room; zeros = s.zeros } };

    ghost invariant = { λ s. (length s.held.items ≤ s.room) × (s.room ≤ vec_capacity s.held) };
}

impl SureSink {
    /// An empty sink with room for `n` bytes.
    ///
    /// # Errors
    ///
    /// `NoMemory` where the room can't be had. No room takes no memory.
    pub fn with_room(alloc: Global, n: usize) -> Result<SureSink, NoMemory>
        ensures empty { IfOk result (λ sink. sink ≡ record { held = []; room = n; zeros = 0 }) }
        ensures no_room { n ≡ 0 → IsOk result }
    {
        let held = Vec::with_capacity(alloc, n)?;
        Ok(SureSink {
            held,
            room: n,
            zeros: 0,
        })
    }

    /// What it holds.
    pub fn held(&self) -> &[u8]
        ensures { result.now ≡ self.now.held }
    {
        self.held.as_slice()
    }
}

impl Sink for SureSink {
    ghost use Rattle.std.specs.Prelude.{Some};

    ghost held = { λ s. Some s.held };

    ghost faults = { λ _. 0 };

    ghost zeros = { λ s. s.zeros };

    /// Takes as many bytes as it has room for. It takes no memory.
    fn write(&mut self, bytes: &[u8]) -> Result<usize, Failed>
        ensures bound { IfOk result (λ count. count ≤ length bytes.now) }
        ensures bytes { WriteAppends (Some self.old.held) (Some self.new.held) result bytes.now }
        ensures cause { HasCause 0 0 result }
        ensures zero { ZeroHasCause self.old.zeros self.new.zeros (length bytes.now) result }
        ensures count { result ≡ Ok (min (length bytes.now) (self.old.room - length self.old.held)) }
        ensures room { self.new.room ≡ self.old.room }
        ensures zeros { IfOk result (λ count. self.new.zeros ≡ zeros_after self.old.zeros (length bytes.now) count) }
    {
        let count = bytes.len().min(self.room - self.held.len());
        self.held.extend_from_slice(&bytes[..count]).unwrap();
        self.zeros = counted_zero(self.zeros, bytes.len(), count);
        Ok(count)
    }
}
