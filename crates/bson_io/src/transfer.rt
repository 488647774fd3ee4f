// A source read to its end, and all that is to be written, written to a sink.
ghost use Rattle.std.specs.Prelude.{◌≡◌, ◌≢◌, ◌+◌, ◌≤◌, ◌<◌, ℕ, length, IfOk, IsOk, OnOk};
ghost use Rattle.std.specs.Io.KnownBytes.{Appends, Consumes, IsAtEnd};
ghost use Rattle.bson_io.specs.Ends.{Rose, HasSinkCause, AppendsPrefix, FitsIn, Takes, TakesAtMost, TakesExactly};
ghost use Rattle.bson_io.specs.declared.transfer.ReadFault.TheVariants.{NoMemory};

use crate::{Failed, Sink, Source};
use std::alloc::{AllocError, Global};

/// The most bytes that are read: the greatest length that a document of BSON can announce in its
/// int32 (bsonspec.org, "document").
pub const MOST: usize = 2147483647;

/// How many bytes one call asks for.
const PIECE: usize = 65536;

/// Why a source was not read to its end.
#[derive(Clone, Copy, Debug, PartialEq, Eq)]
pub enum ReadFault {
    /// A call on the source failed.
    Failed,
    /// There are more than `MOST` bytes.
    TooLong,
    /// There was no memory for the bytes.
    NoMemory,
}

impl From<AllocError> for ReadFault {
    ghost from_gives = { λ _ e. e ≡ NoMemory };

    fn from(_e: AllocError) -> ReadFault {
        ReadFault::NoMemory
    }
}

/// All that a source has left.
///
/// # Errors
///
/// `TooLong` where more than [`MOST`] bytes are left: `MOST + 1` of them were taken then. `Failed` where a call on the source failed,
/// `NoMemory` where memory ran out. After an error the bytes that were taken are gone from the source.
pub fn read_to_end<I: Source>(alloc: Global, input: &mut I) -> Result<Vec<u8>, ReadFault>
    // The bytes are all that was left.
    ensures bytes { IfOk result (λ v. Consumes (I.left input.old) (I.left input.new) v.items) }
    ensures end { OnOk result (IsAtEnd (I.left input.new)) }
    ensures most { IfOk result (λ v. length v.items ≤ MOST) }

    // Whatever comes, only bytes at the front were taken. `TooLong` comes where exactly one more was taken than may come, and
    // nowhere else.
    ensures taken { Takes (I.left input.old) (I.left input.new) }
    ensures too_long { result ≡ Err ReadFault.TooLong → TakesExactly (MOST + 1) (I.left input.old) (I.left input.new) }
    ensures within { result ≢ Err ReadFault.TooLong → TakesAtMost MOST (I.left input.old) (I.left input.new) }

    // `Failed` comes only where a call on the source failed; wherever else it ends, no call did.
    ensures failed { result ≡ Err ReadFault.Failed → Rose (I.faults input.old) (I.faults input.new) }
    ensures kept { result ≢ Err ReadFault.Failed → I.faults input.new ≡ I.faults input.old }
    ensures later { I.faults input.old ≤ I.faults input.new }
{
    let mut bytes = Vec::new(alloc);
    let mut buf = [0u8; PIECE];
    loop {
        let room = PIECE.min(MOST + 1 - bytes.len());
        match input.read(&mut buf[..room]) {
            Ok(0) => return Ok(bytes),
            Ok(n) => {
                if n > MOST - bytes.len() {
                    return Err(ReadFault::TooLong);
                }
                bytes.extend_from_slice(&buf[..n])?;
            }
            Err(_) => return Err(ReadFault::Failed),
        }
    }
}

/// Writes all that is to be written, in as many calls as it takes.
///
/// # Errors
///
/// A call on the sink failed. The sink has got a first part of the bytes.
pub fn write_due<O: Sink>(out: &mut O, due: &[u8]) -> Result<(), Failed>
    ensures all { OnOk result (Appends (O.written out.old) (O.written out.new) due.now) }
    ensures part { AppendsPrefix (O.written out.old) (O.written out.new) due.now }
    ensures cause { HasSinkCause (O.faults out.old) (O.faults out.new) result }
    ensures room { FitsIn (O.room out.old) due.now → IsOk result }
{
    let mut at = 0;
    while at < due.len() {
        at += out.write(&due[at..])?;
    }
    Ok(())
}
