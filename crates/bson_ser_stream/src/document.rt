// Whole documents: into an output buffer, and into a vector.
ghost use Rattle.std.specs.Prelude.{◌≡◌, ◌<◌, ◌≤◌, ◌+◌, ◌-◌, ◌*◌, length, vec_len, Some, Ok, IsOk, OnOk, OnErr, IfOk, IfErr};
ghost use Rattle.bson_kinds.specs.Outcome.{result_map};
ghost use Rattle.bson_base.specs.Sound.{max_bytes, IsSound};
ghost use Rattle.bson_base.specs.Tree.{Tree, enc};
ghost use Rattle.bson_datum.specs.View.{view};
ghost use Rattle.bson_values.specs.ErrorView.{write_failure};
ghost use Rattle.bson_laws.specs.Means.{means};
ghost use Rattle.bson_laws.specs.Spell.{spell_document, size};
ghost use Rattle.bson_ser_stream.specs.Writing.{with_tree, places, count_of, Fails, too_long_failure, GivesBytes};
ghost use Rattle.bson_writing.specs.Halting.{Gives};
ghost use Rattle.bson_ser_stream.specs.Halting.{Grows};

use crate::value::put_value;
use bson_datum::{Datum, MAX_NESTING_LEVEL};
use bson_io::{Ledger, Out, Steps, Tally};
use bson_kinds::ElementType;
use bson_values::Cause;
use bson_values::ser::Result;
use bson_writing::Halt;
use std::alloc::Global;

// A whole document, or as much of it as was written before a refusal.
fn put_whole<L: Ledger>(
    out: &mut Out,
    steps: &mut Steps<L>,
    value: &Datum<'_>,
) -> std::result::Result<(), Halt>
    ensures bytes { Gives (size (view value.now)) out.old.spare (λ _. out.new.bytes) result
        (with_tree out.old.bytes (spell_document (view value.now))) }
    ensures fits { OnOk result (size (view value.now) ≤ max_bytes) }
    ensures grows { Grows out.old out.new steps.old steps.new }
    ensures least { OnOk result (steps.old + length out.new.bytes + count_of places (spell_document (view value.now))
        ≤ steps.new + length out.old.bytes) }
{
    match value.element_type() {
        ElementType::EmbeddedDocument => {
            put_value(out, steps, value, false, MAX_NESTING_LEVEL)?;
            Ok(())
        }
        kind => Err(Halt::caused(out.allocator(), Cause::TopLevel(kind))),
    }
}

/// Appends the bytes of a document to an output buffer, in one pass over the datum.
///
/// A struct is a document of its fields, in order. A map is a document of its entries, in order, whose keys are texts: a `Str`,
/// the name of a `UnitVariant`, or what a `Some` or a `NewtypeStruct` of any name holds. A sequence, a tuple and a tuple struct
/// are an array of their values, in order, whose keys are their indexes from 0 in decimal digits. A variant with contents is a
/// document of one pair: under the name of the variant is the value of a `NewtypeVariant`, an array of the values of a
/// `TupleVariant`, or a document of the fields of a `StructVariant`. `Bool` is a boolean, `I8`, `I16`, `I32`, `U8` and `U16` are
/// an int32, `I64`, `U32` and `U64` an int64, `Double` is a double, `Str`, `Char` and the name of a `UnitVariant` are a string,
/// `Bytes` is a binary of subtype 0, and `RawDocument` and `RawArray` are their bytes, which are not looked at (bsonspec.org,
/// version 1.1). `None`, `Unit` and `UnitStruct` are null. `Some` and
/// `NewtypeStruct` are the value in them. `steps` counts one for each byte that is appended, and one for each byte that is
/// written over the place of a kind or a length.
///
/// A struct whose name is reserved for a kind (`reserved_kind`) is the value of that kind that its fields are accepted as
/// (`bson_reserved::unwrap`, `bson_reserved::scoped_code`). The options of a regular expression are put in order. The newtype
/// `$__bson_private_uuid` is a binary of subtype 4 of the bytes that it holds. A `Mode` is its compact form; a key that is one,
/// and one in the newtype `$__bson_private_human_readable`, is its readable form.
///
/// # Errors
///
/// The first refusal in document order, as `WithPath`, or `NoMemory`. A key comes before its value. After any error `out` holds
/// the bytes that it had, and no less spare room.
///
/// - `SerializationError` with `TopLevel`: the datum is written as a value of this kind, which is no document.
/// - `SerializationError` with `TooDeep`: a document or an array is at level 201. The whole document is at level 1. What a
///   `TupleVariant` or a `StructVariant` holds is one level further in than the document of its name. A `RawDocument` and a
///   `RawArray` have one level, whatever is in them.
/// - `SerializationError` with `BadStep`: the fields of a struct whose name is reserved are not accepted, or the text of its binary
///   is not base64. The path is that of the struct.
/// - `SerializationError` with `BadUuid`: the newtype `$__bson_private_uuid` holds no UUID: bytes, or in a readable form a text of
///   one.
/// - `SerializationError` with `BinaryTooLong`: so many bytes would be behind the subtype of a binary, and at most 16777216 may;
///   in subtype 2 they begin with a second length of four.
/// - `UnsignedIntegerExceededRange`: a `U64` is greater than 9223372036854775807, the greatest that an int64 holds.
/// - `InvalidDocumentKey`: a key of a map is no text. It carries a scalar as it would be written, null for `None`, `Unit`, a
///   `UnitStruct` and a number that is not written, what a `Some` or a `NewtypeStruct` holds, the readable form of a `Mode`, an empty array for a sequence, a
///   tuple, a `TupleVariant` and a `RawArray`, and an empty document for every other value. The path is that of the map.
/// - `InvalidCString`: a zero character is in the name of a field, in the name of a variant with contents, in a key of a map, or
///   in the pattern or the options of a regular expression, the pattern first. The path is that of the struct, of the document
///   that the variant is written as, or of the map.
/// - A refusal of the scope of code, or of a value in it, has the segment `$scope` in its path behind that of the struct.
/// - `SerializationError` with `TooLong`, with the empty path: the document would have more than 2147483647 bytes. Where it
///   would, and a value is refused too, either may come.
pub fn to_buf<L: Ledger>(value: &Datum<'_>, out: &mut Out, steps: &mut Steps<L>) -> Result<()>
    ensures bytes { OnOk result
        (with_tree out.old.bytes (spell_document (view value.now)) ≡ Ok out.new.bytes) }
    ensures fits { OnOk result (size (view value.now) ≤ max_bytes) }

    ensures refused { let v = view value.now in
        IfErr result (λ e. Fails (size v) (spell_document v) (write_failure e)) }
    ensures too_long { IfErr result
        (λ e. write_failure e ≡ too_long_failure → max_bytes < size (view value.now)) }
    ensures kept { OnErr result (out.new.bytes ≡ out.old.bytes) }
    // The room that was reserved stays.
    ensures room { OnErr result (out.old.spare ≤ out.new.spare) }

    // Where the room is spare, what means a sound document is written, whatever memory there is.
    ensures memory { (t : Tree) → means (view value.now) ≡ Some t → IsSound t
        → size (view value.now) ≤ out.old.spare → IsOk result }
    ensures spare { OnOk result
        (out.old.spare ≤ out.new.spare + (length out.new.bytes - length out.old.bytes)) }

    // Each byte that is appended, and each that is written over the place of a kind or a length, is a step.
    ensures counted { OnOk result
        (steps.old + (length out.new.bytes - length out.old.bytes) + count_of places (spell_document (view value.now))
        ≤ steps.new) }
    ensures steps { OnOk result
        (steps.new ≤ steps.old + 2 * (length out.new.bytes - length out.old.bytes)) }
{
    let start = out.len();
    match put_whole(out, steps, value) {
        Ok(()) => Ok(()),
        Err(halt) => {
            out.cut(start);
            Err(halt.into_error(out.allocator()))
        }
    }
}

/// The bytes of a document, as [`to_buf`] appends them. `steps` rises by at least their number, one for each element and four
/// for each document, array and code with its scope that is not given by its bytes, and by at most twice their number.
///
/// # Errors
///
/// Those of [`to_buf`].
pub fn to_vec_counted<L: Ledger>(
    alloc: Global,
    value: &Datum<'_>,
    steps: &mut Steps<L>,
) -> Result<Vec<u8>>
    ensures bytes { IfOk result
        (λ out. result_map enc (spell_document (view value.now)) ≡ Ok out.items) }
    ensures fits { OnOk result (size (view value.now) ≤ max_bytes) }
    ensures refused { let v = view value.now in
        IfErr result (λ e. Fails (size v) (spell_document v) (write_failure e)) }
    ensures too_long { IfErr result
        (λ e. write_failure e ≡ too_long_failure → max_bytes < size (view value.now)) }

    // What means a sound document is written as that document, unless memory runs out.
    ensures sound { (t : Tree) → means (view value.now) ≡ Some t → IsSound t
        → GivesBytes (λ v. v.items) (enc t) result }
    ensures counted { IfOk result
        (λ out. steps.old + vec_len out + count_of places (spell_document (view value.now)) ≤ steps.new) }
    ensures steps { IfOk result (λ out. steps.new ≤ steps.old + 2 * vec_len out) }
{
    let mut out = Out::new(alloc);
    to_buf(value, &mut out, steps)?;
    Ok(out.into_vec())
}

/// The bytes of a document, as [`to_buf`] appends them.
///
/// # Errors
///
/// Those of [`to_buf`].
pub fn to_vec_at(alloc: Global, value: &Datum<'_>) -> Result<Vec<u8>>
    ensures bytes { IfOk result
        (λ out. result_map enc (spell_document (view value.now)) ≡ Ok out.items) }
    ensures fits { OnOk result (size (view value.now) ≤ max_bytes) }
    ensures refused { let v = view value.now in
        IfErr result (λ e. Fails (size v) (spell_document v) (write_failure e)) }
    ensures too_long { IfErr result
        (λ e. write_failure e ≡ too_long_failure → max_bytes < size (view value.now)) }

    // What means a sound document is written as that document, unless memory runs out.
    ensures sound { (t : Tree) → means (view value.now) ≡ Some t → IsSound t
        → GivesBytes (λ v. v.items) (enc t) result }
{
    let mut steps = Steps::<Tally>::new();
    to_vec_counted(alloc, value, &mut steps)
}
