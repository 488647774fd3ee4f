// Byte strings, borrowed and owned.
ghost use Rattle.bson_rawdoc.specs.Node.{opens};
ghost use Rattle.bson_kinds.specs.Piece.{borrowed};
ghost use Rattle.bson_laws.specs.Taken.{bytes_of, reads_bytes};
ghost use Rattle.bson_met.specs.Gives.{Reaches};
ghost use Rattle.bson_met.specs.OpenedView.{extended_view};
ghost use Rattle.bson_texts.specs.Leaves.{bytes_at, buffer_at, byte_at};

use bson_met::{Extended, Items, Met, Reading, Value, refused};
use bson_values::Cause;
use std::alloc::Global;

/// The bytes that a value is, borrowed.
#[inline(never)]
pub fn borrow_bytes<'de>(alloc: Global, value: &Met<'de>) -> Reading<&'de [u8]>
    ensures { Reaches (λ b. borrowed b.now) result (bytes_at value.now) }
{
    match value.judge(alloc)? {
        Value::Bytes(bytes) => bytes.borrow(alloc),
        Value::String(text) => Ok(text.borrow(alloc)?.as_bytes()),
        Value::Extended(value) => borrow_id(alloc, value),
        other => Err(refused(alloc, Cause::InvalidType(other.kind()))),
    }
}

/// The bytes of an ObjectId, borrowed.
fn borrow_id<'de>(alloc: Global, value: Extended<'de>) -> Reading<&'de [u8]>
    ensures { Reaches (λ b. borrowed b.now) result (bytes_of (opens (extended_view value.entry))) }
{
    match value {
        Extended::ObjectId(bytes) => bytes.borrow(alloc),
        other => Err(refused(alloc, Cause::InvalidType(other.kind()))),
    }
}

/// A copy of the bytes of a binary or of a text, or the bytes that the numbers of an array are.
#[inline(never)]
pub fn buffer(alloc: Global, value: &Met<'_>) -> Reading<Vec<u8>>
    ensures { Reaches (λ v. v.items) result (buffer_at value.now) }
{
    match value.judge(alloc)? {
        Value::Bytes(bytes) => Ok(bytes.bytes.to_vec(alloc)?),
        Value::String(text) => Ok(text.to_string(alloc)?.into_bytes()),
        Value::Array(array) => bytes_of_items(alloc, Items::of_array(array)),
        other => Err(refused(alloc, Cause::InvalidType(other.kind()))),
    }
}

/// The bytes that the numbers of an array are.
fn bytes_of_items(alloc: Global, mut items: Items<'_>) -> Reading<Vec<u8>>
    ensures { Reaches (λ v. v.items) result (reads_bytes 0 items.entry) }
{
    let mut bytes = Vec::new(alloc);
    let mut index = 0;
    let mut value = items.start();
    'step: while items.advance(alloc, &mut value)? {
        match byte(alloc, &value) {
            Ok(byte) => bytes.push(byte)?,
            Err(stop) => return Err(stop.under_index(index)),
        }
        index += 1;
    }
    Ok(bytes)
}

/// The byte that the number of a value is.
fn byte(alloc: Global, value: &Met<'_>) -> Reading<u8>
    ensures { Reaches (λ b. b) result (byte_at value.now) }
{
    let number = value.integer(alloc)?;
    match u8::try_from(number) {
        Ok(byte) => Ok(byte),
        Err(_) => Err(refused(alloc, Cause::OutOfRange(number))),
    }
}
