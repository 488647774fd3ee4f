// Values without others in them, appended by their bytes. Each function answers the kind of its value.
ghost use Rattle.std.specs.Prelude.{◌≡◌, ◌+◌, ◌-◌, ◌≤◌, ◌<◌, ◌++◌, ◌∷◌, [], length, take, drop, Ok, OnOk};
ghost use Rattle.bson_base.specs.Instant.{millis};
ghost use Rattle.bson_kinds.specs.Kind.{byte};
ghost use Rattle.bson_base.specs.Tree as trees;
ghost use Rattle.bson_base.specs.Tree.{closed_text, le32};
ghost use Rattle.bson_laws.specs.Assembled.{plain};
ghost use Rattle.bson_raw_parts.specs.Putting.{Puts, PutsPart, part_expected};

use crate::refusals::refused;
use bson_base::{DateTime, Decimal128, Double, MAX_BINARY, ObjectId, Timestamp, has_zero};
use bson_kinds::ElementType;
use bson_values::Cause;
use bson_values::de::Result;
use std::alloc::AllocError;

/// The old subtype of bytes without a further meaning, in which a second length is before them.
const OLD_GENERIC: u8 = 2;

/// Appends a double, by its eight bytes.
pub fn put_double(out: &mut Vec<u8>, number: Double) -> Result<ElementType>
    ensures { Puts result out.old.items out.new.items (Ok (trees.double number.0)) }
{
    append(out, &number.0)?;
    Ok(ElementType::Double)
}

/// Appends a string.
pub fn put_string(out: &mut Vec<u8>, text: &str) -> Result<ElementType>
    ensures { Puts result out.old.items out.new.items (Ok (trees.string text.now)) }
{
    append_text(out, text)?;
    Ok(ElementType::String)
}

/// Appends a boolean.
pub fn put_boolean(out: &mut Vec<u8>, truth: bool) -> Result<ElementType>
    ensures { Puts result out.old.items out.new.items (Ok (trees.boolean truth)) }
{
    append(out, if truth { &[1] } else { &[0] })?;
    Ok(ElementType::Boolean)
}

/// Appends a code without a scope.
pub fn put_code(out: &mut Vec<u8>, code: &str) -> Result<ElementType>
    ensures { Puts result out.old.items out.new.items (Ok (trees.javascript_code code.now)) }
{
    append_text(out, code)?;
    Ok(ElementType::JavaScriptCode)
}

/// Appends a symbol.
pub fn put_symbol(out: &mut Vec<u8>, text: &str) -> Result<ElementType>
    ensures { Puts result out.old.items out.new.items (Ok (trees.symbol text.now)) }
{
    append_text(out, text)?;
    Ok(ElementType::Symbol)
}

/// Appends a number of 32 bits.
#[tactic(auto, unfolding(bson_base::specs::Tree::le32))]
pub fn put_int32(out: &mut Vec<u8>, number: i32) -> Result<ElementType>
    ensures { Puts result out.old.items out.new.items (Ok (trees.int32 number)) }
{
    append(out, &number.to_le_bytes())?;
    Ok(ElementType::Int32)
}

/// Appends a number of 64 bits.
#[tactic(auto, unfolding(bson_base::specs::Tree::le64))]
pub fn put_int64(out: &mut Vec<u8>, number: i64) -> Result<ElementType>
    ensures { Puts result out.old.items out.new.items (Ok (trees.int64 number)) }
{
    append(out, &number.to_le_bytes())?;
    Ok(ElementType::Int64)
}

/// Appends a time, by its milliseconds.
#[tactic(auto, unfolding(bson_base::specs::Tree::le64))]
pub fn put_date_time(out: &mut Vec<u8>, time: DateTime) -> Result<ElementType>
    ensures { Puts result out.old.items out.new.items (Ok (trees.date_time (millis time))) }
{
    append(out, &time.timestamp_millis().to_le_bytes())?;
    Ok(ElementType::DateTime)
}

/// Appends a timestamp: its increment, and then its time.
#[tactic(auto, unfolding(bson_base::specs::Tree::le32))]
pub fn put_timestamp(out: &mut Vec<u8>, timestamp: Timestamp) -> Result<ElementType>
    ensures { Puts result out.old.items out.new.items (Ok (trees.timestamp timestamp.time timestamp.increment)) }
{
    append(out, &timestamp.increment.to_le_bytes())?;
    append(out, &timestamp.time.to_le_bytes())?;
    Ok(ElementType::Timestamp)
}

/// Appends an ObjectId, by its twelve bytes.
pub fn put_object_id(out: &mut Vec<u8>, id: ObjectId) -> Result<ElementType>
    ensures { Puts result out.old.items out.new.items (Ok (trees.object_id id.0)) }
{
    append(out, &id.0)?;
    Ok(ElementType::ObjectId)
}

/// Appends a decimal number, by its sixteen bytes.
pub fn put_decimal128(out: &mut Vec<u8>, number: Decimal128) -> Result<ElementType>
    ensures { Puts result out.old.items out.new.items (Ok (trees.decimal128 number.0)) }
{
    append(out, &number.0)?;
    Ok(ElementType::Decimal128)
}

/// Appends a reference to a document: its namespace, as a text, and its id.
pub fn put_db_pointer(out: &mut Vec<u8>, namespace: &str, id: ObjectId) -> Result<ElementType>
    ensures { Puts result out.old.items out.new.items (Ok (trees.db_pointer namespace.now id.0)) }
{
    append_text(out, namespace)?;
    append(out, &id.0)?;
    Ok(ElementType::DbPointer)
}

/// Appends a regular expression, whose parts are refused where they hold a zero character.
pub fn put_regular_expression(
    out: &mut Vec<u8>,
    pattern: &str,
    options: &str,
) -> Result<ElementType>
    ensures { Puts result out.old.items out.new.items (plain (trees.regular_expression pattern.now options.now)) }
{
    put_part(out, pattern)?;
    put_part(out, options)?;
    Ok(ElementType::RegularExpression)
}

// Appends a part of a regular expression, closed by a zero.
fn put_part(out: &mut Vec<u8>, part: &str) -> Result<()>
    ensures { PutsPart (λ t. t ++ 0 ∷ []) result out.old.items out.new.items (part_expected part.now) }
{
    if has_zero(part) {
        return Err(refused(Cause::ZeroByte));
    }
    append_closed(out, part)?;
    Ok(())
}

/// Appends a binary, which is refused where it has more bytes than one of its subtype may.
#[tactic(auto, using(std::proofs::lemmas::Bool::Decides::nat_tests))]
pub fn put_binary(out: &mut Vec<u8>, subtype: u8, bytes: &[u8]) -> Result<ElementType>
    ensures { Puts result out.old.items out.new.items (plain (trees.binary subtype bytes.now)) }
{
    if subtype == OLD_GENERIC {
        return put_old_binary(out, bytes);
    }
    if bytes.len() > MAX_BINARY {
        return Err(refused(Cause::BinaryTooLong(bytes.len() as u64)));
    }
    append(out, &length_bytes(bytes.len()))?;
    append(out, &[subtype])?;
    append(out, bytes)?;
    Ok(ElementType::Binary)
}

// Appends a binary of the old subtype, with its second length.
#[tactic(auto, using(std::proofs::lemmas::Bool::Decides::nat_tests))]
fn put_old_binary(out: &mut Vec<u8>, bytes: &[u8]) -> Result<ElementType>
    ensures { Puts result out.old.items out.new.items (plain (trees.binary 2 bytes.now)) }
{
    let behind = bytes.len() + 4;
    if behind > MAX_BINARY {
        return Err(refused(Cause::BinaryTooLong(behind as u64)));
    }
    append(out, &length_bytes(behind))?;
    append(out, &[OLD_GENERIC])?;
    append(out, &length_bytes(bytes.len()))?;
    append(out, bytes)?;
    Ok(ElementType::Binary)
}

// ---- bytes

/// Appends a text: its length, its bytes, a zero.
pub fn append_text(out: &mut Vec<u8>, text: &str) -> std::result::Result<(), AllocError>
    ensures { OnOk result (out.new.items ≡ out.old.items ++ closed_text text.now) }
{
    append(out, &length_bytes(text.len() + 1))?;
    append_closed(out, text)
}

/// Appends a text and a zero.
pub fn append_closed(out: &mut Vec<u8>, text: &str) -> std::result::Result<(), AllocError>
    ensures { OnOk result (out.new.items ≡ out.old.items ++ (text.now ++ 0 ∷ [])) }
{
    append(out, text.as_bytes())?;
    append(out, &[0])
}

/// Appends bytes.
#[inline(always)]
pub fn append(out: &mut Vec<u8>, piece: &[u8]) -> std::result::Result<(), AllocError>
    ensures { OnOk result (out.new.items ≡ out.old.items ++ piece.now) }
{
    out.extend_from_slice(piece)
}

/// Writes how many bytes there are from a place on into the first four of them.
pub fn set_length(out: &mut Vec<u8>, start: usize)
    requires { start + 4 ≤ length out.old.items }
    ensures { out.new.items ≡ take start out.old.items ++ (le32 (length out.old.items - start) ++ drop (start + 4) out.old.items) }
{
    let count = length_bytes(out.len() - start);
    out[start..start + 4].copy_from_slice(&count);
}

/// Writes the byte of a kind over the byte at a place.
pub fn set_kind(out: &mut Vec<u8>, place: usize, kind: ElementType)
    requires { place < length out.old.items }
    ensures { out.new.items ≡ take place out.old.items ++ (byte kind ∷ drop (place + 1) out.old.items) }
{
    out[place] = kind.byte();
}

// The four low bytes of a length. Those of a value that is too long are of no use, and it is refused at the end.
#[tactic(auto, unfolding(bson_base::specs::Tree::le32))]
fn length_bytes(length: usize) -> [u8; 4]
    ensures { result ≡ le32 length }
{
    let [a, b, c, d, ..] = length.to_le_bytes();
    [a, b, c, d]
}
