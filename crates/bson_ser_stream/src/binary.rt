// Bytes with a subtype.
ghost use Rattle.std.specs.Prelude.{◌≡◌, ◌<◌, ◌≤◌, ◌+◌, ◌^◌, length, option_map, IsOk, OnOk};
ghost use Rattle.bson_base.specs.Parsed.{bytes_of_base64};
ghost use Rattle.bson_base.specs.Tree.{binary};
ghost use Rattle.bson_io.specs.Output.{Appended};
ghost use Rattle.bson_laws.specs.Written.{spell_binary, spell_unwrapped, written_size};
ghost use Rattle.bson_ser_stream.specs.Binary.{behind_length, binary_front, Fills};
ghost use Rattle.bson_ser_stream.specs.Halting.{Puts, Grows};
ghost use Rattle.bson_ser_stream.specs.Decoding.{IsFault};

use crate::base64_text::{Base64Fault, push_base64};
use bson_base::{BinarySubtype, MAX_BINARY};
use bson_io::{Ledger, Out, Steps};
use bson_kinds::ElementType;
use bson_values::{Cause, Stop};
use bson_writing::Halt;
use std::alloc::{AllocError, Global};

// The old subtype of bytes without a further meaning, in which a second length is before them.
const OLD_GENERIC: u8 = 2;

// The bytes of a length.
const LENGTH_BYTES: usize = 4;

// Where the second length of the old subtype is in a binary: behind the first and the subtype.
const SECOND_LENGTH: usize = 5;

// How many bytes are behind the subtype of a binary of so many bytes.
#[inline(always)]
fn behind_length(subtype: BinarySubtype, count: usize) -> usize
    requires { count < 2 ^ 63 }
    ensures { result ≡ behind_length subtype.0 count }
{
    if subtype.0 == OLD_GENERIC {
        count + LENGTH_BYTES
    } else {
        count
    }
}

// Appends what is before the bytes of a binary of so many bytes.
#[inline(always)]
fn push_front<L: Ledger>(
    out: &mut Out,
    steps: &mut Steps<L>,
    subtype: BinarySubtype,
    count: usize,
) -> Result<(), AllocError>
    requires { behind_length subtype.0 count ≤ MAX_BINARY }
    ensures ok { OnOk result (Appended out.old out.new (binary_front subtype.0 count) steps.old steps.new) }
    ensures free { length (binary_front subtype.0 count) ≤ out.old.spare → IsOk result }
    ensures grows { Grows out.old out.new steps.old steps.new }
{
    let behind = behind_length(subtype, count);
    out.push_all(&(behind as i32).to_le_bytes(), steps)?;
    out.push(subtype.0, steps)?;
    if subtype.0 == OLD_GENERIC {
        out.push_all(&(count as i32).to_le_bytes(), steps)?;
    }
    Ok(())
}

/// Appends bytes with a subtype. More of them than a binary may have are refused before anything is written.
#[inline(always)]
pub(crate) fn put_binary<L: Ledger>(
    out: &mut Out,
    steps: &mut Steps<L>,
    subtype: BinarySubtype,
    bytes: &[u8],
) -> Result<ElementType, Halt>
    ensures { let expected = spell_binary subtype.0 bytes.now in
        Puts ElementType.Binary (written_size expected) expected out.old out.new steps.old steps.new result }
{
    let behind = behind_length(subtype, bytes.len());
    if behind > MAX_BINARY {
        return Err(Halt::caused(out.allocator(), Cause::BinaryTooLong(behind as u64)));
    }
    push_front(out, steps, subtype, bytes.len())?;
    out.push_all(bytes, steps)?;
    Ok(ElementType::Binary)
}

// Writes the lengths of a binary of so many bytes over those of an empty one that begins at a place.
fn fill_front<L: Ledger>(
    out: &mut Out,
    steps: &mut Steps<L>,
    start: usize,
    subtype: BinarySubtype,
    count: usize,
)
    requires small { behind_length subtype.0 count ≤ MAX_BINARY }
    requires inside { start + length (binary_front subtype.0 0) ≤ length out.old.bytes }
    requires fits { start + length (binary_front subtype.0 0) < 2 ^ 64 }
    ensures { Fills out.old out.new start subtype.0 count steps.old steps.new }
{
    let behind = behind_length(subtype, count);
    out.patch_i32(start, behind as i32, steps);
    if subtype.0 == OLD_GENERIC {
        out.patch_i32(start + SECOND_LENGTH, count as i32, steps);
    }
}

// Why a base64 text is refused; or memory ran out.
fn base64_halt(alloc: Global, fault: Base64Fault) -> Halt
    ensures { IsFault fault result }
{
    match fault {
        Base64Fault::NotBase64 => Halt::caused(alloc, Cause::BadStep),
        Base64Fault::NoMemory => Halt::Stopped(Stop::NoMemory),
    }
}

/// Appends the bytes of a base64 text, with a subtype. A text that is not base64, and more bytes than a binary may have, are
/// refused; then some bytes may be there.
pub(crate) fn put_base64<L: Ledger>(
    out: &mut Out,
    steps: &mut Steps<L>,
    subtype: BinarySubtype,
    text: &str,
) -> Result<ElementType, Halt>
    ensures { let expected = spell_unwrapped (option_map (λ bs. binary subtype.0 bs) (bytes_of_base64 text.now)) in
        Puts ElementType.Binary (written_size expected) expected out.old out.new steps.old steps.new result }
{
    let start = out.len();
    push_front(out, steps, subtype, 0)?;
    let bytes_start = out.len();
    if let Err(fault) = push_base64(out, steps, text) {
        return Err(base64_halt(out.allocator(), fault));
    }
    let count = out.len() - bytes_start;
    let behind = behind_length(subtype, count);
    if behind > MAX_BINARY {
        return Err(Halt::caused(out.allocator(), Cause::BinaryTooLong(behind as u64)));
    }
    fill_front(out, steps, start, subtype, count);
    Ok(ElementType::Binary)
}
