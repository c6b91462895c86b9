// A source read to its end, and a piece written whole.
ghost use Rattle.std.specs.Prelude.{◌≡◌, ◌≤◌, IfOk, IfErr, OnOk, OnErr, IsErrOf, vec_len};
ghost use Rattle.mf_io.specs.Bytes.{Gives, Takes, Ended, WasLeft, MoreLeft};
ghost use Rattle.mf_io.specs.Faults.{Rose};
ghost use Rattle.mf_io.specs.Whole.{Refuses, TakesPart};

use crate::{Failed, Sink, Source};
use std::alloc::{AllocError, Global};

/// Want of memory, under the name that refusals give it.
pub type Memory = AllocError;

/// Why a source wasn't read to its end.
#[derive(Clone, Copy, Debug, PartialEq, Eq)]
pub enum ReadRefusal {
    /// A call of the source failed.
    Failed,
    /// More bytes came than the limit.
    TooLong,
    Memory,
}

/// Why a piece wasn't written whole.
#[derive(Clone, Copy, Debug, PartialEq, Eq)]
pub enum WriteRefusal {
    /// A call of the sink failed.
    Failed,
}

impl From<Failed> for ReadRefusal {
    ghost use Rattle.mf_io.specs.declared.whole.ReadRefusal.TheVariants.{Failed as FailedRefusal};

    ghost from_gives = { λ _ refusal. refusal ≡ FailedRefusal };

    fn from(_: Failed) -> Self {
        ReadRefusal::Failed
    }
}

impl From<AllocError> for ReadRefusal {
    ghost use Rattle.mf_io.specs.declared.whole.ReadRefusal.TheVariants.{Memory as MemoryRefusal};

    ghost from_gives = { λ _ refusal. refusal ≡ MemoryRefusal };

    fn from(_: AllocError) -> Self {
        ReadRefusal::Memory
    }
}

// How many bytes one call of a source may give.
const ROOM: usize = 4096;

/// Reads to the end, at most `limit` bytes. A source that tells its bytes and has more is read at
/// most 4,096 bytes further.
pub fn read_all<S: Source>(
    alloc: Global,
    source: &mut S,
    limit: usize,
) -> Result<Vec<u8>, ReadRefusal>
    // The bytes are all that was left.
    ensures gives { IfOk result (λ bytes. Gives (S.left source.old) (S.left source.new) bytes.items) }
    ensures ended { OnOk result (Ended (S.left source.new)) }
    ensures whole { IfOk result (λ bytes. WasLeft (S.left source.old) bytes.items) }
    ensures fits { IfOk result (λ bytes. vec_len bytes ≤ limit) }

    // More than `limit` bytes came exactly where it is too long.
    ensures refused { IfErr result (Refuses limit (S.left source.old) (S.left source.new)) }
    ensures too_long { IsErrOf result ReadRefusal.TooLong → MoreLeft limit (S.left source.old) }

    ensures failed { IsErrOf result ReadRefusal.Failed → Rose (S.faults source.old) (S.faults source.new) }
    ensures never_falls { S.faults source.old ≤ S.faults source.new }
{
    let mut bytes = Vec::new(alloc);
    let mut room = [0; ROOM];
    loop {
        let count = source.read(&mut room)?;
        if count == 0 {
            return Ok(bytes);
        }
        if count > limit - bytes.len() {
            return Err(ReadRefusal::TooLong);
        }
        bytes.extend_from_slice(&room[..count])?;
    }
}

/// Writes the piece, in as many calls as the sink needs. For an empty piece there is no call.
pub fn write_all<K: Sink>(sink: &mut K, piece: &[u8]) -> Result<(), WriteRefusal>
    ensures takes { OnOk result (Takes (K.taken sink.old) (K.taken sink.new) piece.now) }
    ensures part { OnErr result (TakesPart (K.taken sink.old) (K.taken sink.new) piece.now) }
    ensures failed { OnErr result (Rose (K.faults sink.old) (K.faults sink.new)) }
    ensures never_falls { K.faults sink.old ≤ K.faults sink.new }
{
    let mut written = 0;
    while written < piece.len() {
        match sink.write(&piece[written..]) {
            Ok(count) => written += count,
            Err(Failed) => return Err(WriteRefusal::Failed),
        }
    }
    Ok(())
}
