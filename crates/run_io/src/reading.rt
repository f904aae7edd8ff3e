//! Reading a source to its end.

ghost use Rattle.std.specs.Prelude.{◌≡◌, ◌+◌, ◌≤◌, IfOk, IsErrOf, length};
ghost use Rattle.run_io.specs.Causes.{Rose};
ghost use Rattle.run_io.specs.Moves.{TakesAll, TakesAtMost, TakesMoreThan};

use crate::source::{Failed, Source};
use basics::{Bytes, NoMemory};
use std::alloc::Global;

/// The most bytes that are asked of a source at once.
pub const CHUNK: usize = 64 * 1024;

/// Why a source was not read to its end.
#[derive(Clone, Copy, Debug, PartialEq, Eq)]
pub enum ReadEnd {
    /// The source failed.
    Fault,
    /// More bytes than the limit were taken.
    TooLong,
    /// Memory ran out.
    NoMemory,
}

impl From<NoMemory> for ReadEnd {
    ghost use Rattle.std.specs.Prelude.{◌≡◌};
    ghost use Rattle.run_io.specs.declared.reading.ReadEnd.TheVariants as end;

    ghost from_gives = { λ _ e. e ≡ end.NoMemory };

    fn from(_error: NoMemory) -> ReadEnd {
        ReadEnd::NoMemory
    }
}

/// Reads all that a source has left, at most `limit` bytes. After `TooLong` more than `limit`
/// bytes were taken, at most a chunk more; after `Fault` and `NoMemory` at most `limit`.
///
/// # Errors
///
/// `Fault` where the source failed, `TooLong` where it gave more than `limit` bytes, and `NoMemory`.
pub fn read_all<S: Source>(alloc: Global, source: &mut S, limit: u32) -> Result<Bytes, ReadEnd>
    ensures all { IfOk result (λ bytes. TakesAll (S.left source.old) (S.left source.new) bytes) }
    ensures within { IfOk result (λ bytes. length bytes ≤ limit) }
    ensures later { S.faults source.old ≤ S.faults source.new }
    ensures fault { IsErrOf result ReadEnd.Fault → Rose (S.faults source.old) (S.faults source.new) }
    ensures fault_takes { IsErrOf result ReadEnd.Fault → TakesAtMost limit (S.left source.old) (S.left source.new) }
    ensures too_long { IsErrOf result ReadEnd.TooLong → TakesMoreThan limit (S.left source.old) (S.left source.new) }
    ensures too_long_takes { IsErrOf result ReadEnd.TooLong → TakesAtMost (limit + CHUNK) (S.left source.old) (S.left source.new) }
    ensures memory_takes { IsErrOf result ReadEnd.NoMemory → TakesAtMost limit (S.left source.old) (S.left source.new) }
{
    let mut room = chunk_room(alloc)?;
    let mut taken = Bytes::new(alloc);
    loop {
        match source.read(room.as_mut_slice()) {
            Ok(0) => return Ok(taken),
            Ok(count) => {
                if count > limit as usize - taken.len() {
                    return Err(ReadEnd::TooLong);
                }
                taken.append(&room[..count])?;
            }
            Err(Failed) => return Err(ReadEnd::Fault),
        }
    }
}

/// Room for what one read gives.
fn chunk_room(alloc: Global) -> Result<Vec<u8>, NoMemory>
    ensures { IfOk result (λ room. length room.items ≡ CHUNK) }
{
    Ok(vec![in alloc; 0; CHUNK]?)
}
