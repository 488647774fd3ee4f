// Bytes taken from a source in small pieces, for documents that are mostly small.
ghost use Rattle.std.specs.Prelude.{◌≡◌, ◌≢◌, ◌+◌, ◌-◌, ◌≤◌, ◌++◌, List, ℕ, length, OnOk};
ghost use Rattle.bson_io.specs.Ends.{Rose};
ghost use Rattle.bson_source.specs.Taken.{TakesSome, TakesAll};

use bson_io::Source;
use bson_source::TakeFault;

/// How many bytes one call asks for. The buffer for them is cleared for each document, so it is small: a source that is slow to ask is read through `Buffered`.
const PIECE: usize = 128;

// As `take_up_to` of bson_source.
pub(crate) fn take_up_to<S: Source>(
    bytes: &mut Vec<u8>,
    most: usize,
    source: &mut S,
) -> Result<(), TakeFault>
    requires room { length bytes.now.items ≤ most }
    // All of them are there, behind those that were.
    ensures all { OnOk result ((more : List ℕ) × (bytes.new.items ≡ bytes.old.items ++ more)
        × TakesAll (most - length bytes.old.items) (S.left source.old) (S.left source.new) more) }
    // Whatever comes, only bytes at the front were taken, and no more than were asked for.
    ensures some { (more : List ℕ) × TakesSome (most - length bytes.old.items) (S.left source.old) (S.left source.new) more }
    // `Failed` comes only where a call on the source failed; wherever else it ends, no call did.
    ensures kept { result ≢ Err TakeFault.Failed → S.faults source.new ≡ S.faults source.old }
    ensures failed { result ≡ Err TakeFault.Failed → Rose (S.faults source.old) (S.faults source.new) }
    ensures later { S.faults source.old ≤ S.faults source.new }
{
    let mut buf = [0u8; PIECE];
    while bytes.len() < most {
        let room = PIECE.min(most - bytes.len());
        match source.read(&mut buf[..room]) {
            Ok(0) => return Ok(()),
            Ok(n) => bytes.extend_from_slice(&buf[..n])?,
            Err(_) => return Err(TakeFault::Failed),
        }
    }
    Ok(())
}
