// The bytes of a document that is owned, appended in one walk over it. Places for lengths are left, and filled when the lengths are known.
ghost use Rattle.std.specs.Prelude.{◌≡◌, ◌≤◌, ◌+◌, ◌-◌, ◌++◌, ◌∷◌, [], None, length, take, drop};
ghost use Rattle.std.specs.Fmt.{decimal};
ghost use Rattle.bson_base.specs.BsonView.{tree_of, trees_of, pairs_of};
ghost use Rattle.bson_base.specs.Encoded.{zero_fault, binary_fault, encode_fault, encoded, Encodes, Puts, TellsZero};
ghost use Rattle.bson_kinds.specs.Kind.{byte};
ghost use Rattle.bson_base.specs.Tree as trees;
ghost use Rattle.bson_base.specs.Tree.{enc, closed_text, le32};

use crate::Timestamp;
use crate::bson::Bson;
use crate::document::Document;
use crate::limits::{MAX_BINARY, MAX_BYTES};
use crate::regex::Regex;
use crate::texts::has_zero;
use bson_kinds::ElementType;
use std::alloc::{AllocError, Global};
use thiserror::Error;

/// Why a document has no bytes.
#[derive(Debug, Drop, Error)]
pub enum EncodeError {
    /// This key, or part of a regular expression, holds a zero character.
    #[error("zero byte in a key or regex")]
    KeyZero(String),
    /// A binary is longer than one of its subtype may be: it has so many bytes behind its subtype.
    #[error("binary too long")]
    BinaryTooLong(u64),
    /// There are more than 2147483647 bytes.
    #[error("value exceeds maximum length")]
    TooLong,
    /// Out of memory.
    #[error("out of memory")]
    NoMemory,
}

impl From<AllocError> for EncodeError {
    ghost use Rattle.bson_base.specs.declared.encoding.EncodeError.TheVariants.{NoMemory as NoMemoryError};

    ghost from_gives = { λ _ e. e ≡ NoMemoryError };

    fn from(_error: AllocError) -> EncodeError {
        EncodeError::NoMemory
    }
}

impl Document {
    /// The bytes of the document.
    ///
    /// Source: bsonspec.org, version 1.1, `document`.
    ///
    /// # Errors
    ///
    /// The first of these in document order: `KeyZero` at a key, or a part of a regular expression, that holds a zero character, and `BinaryTooLong` at a binary
    /// with more than 16777216 bytes behind its subtype, where the old subtype 2 has a second length among them. `TooLong` where there is none of these and
    /// the bytes are more than 2147483647. `NoMemory` where memory ran out.
    pub fn to_vec(&self, alloc: Global) -> Result<Vec<u8>, EncodeError>
        ensures bytes { Encodes result (encoded (pairs_of self.now)) }
    {
        let mut out = Vec::new(alloc);
        put_document(&mut out, self)?;
        if out.len() > MAX_BYTES {
            return Err(EncodeError::TooLong);
        }
        Ok(out)
    }
}

// Appends a value.
#[cycle(encode)]
#[tactic(auto, using(crate::proofs::Rows::row_items, crate::proofs::Rows::row_pairs))]
fn put_value(out: &mut Vec<u8>, value: &Bson) -> Result<(), EncodeError>
    ensures { Puts result (encode_fault (tree_of value.now)) out.old.items out.new.items (enc (tree_of value.now)) }
{
    match value {
        Bson::Double(number) => append(out, &number.0),
        Bson::String(text) => put_text(out, text),
        Bson::Array(values) => put_array(out, values),
        Bson::Document(document) => put_document(out, document),
        Bson::Boolean(truth) => put_boolean(out, *truth),
        Bson::RegularExpression(regex) => put_regex(out, regex),
        Bson::JavaScriptCode(code) => put_text(out, code),
        Bson::JavaScriptCodeWithScope(scoped) => put_scoped(out, &scoped.code, &scoped.scope),
        Bson::Int32(number) => put_int32(out, *number),
        Bson::Int64(number) => put_int64(out, *number),
        Bson::Timestamp(timestamp) => put_timestamp(out, *timestamp),
        Bson::Binary(binary) => put_binary(out, binary.subtype.0, &binary.bytes),
        Bson::ObjectId(id) => append(out, &id.0),
        Bson::DateTime(time) => put_int64(out, time.timestamp_millis()),
        Bson::Symbol(text) => put_text(out, text),
        Bson::Decimal128(number) => append(out, &number.0),
        Bson::DbPointer(pointer) => {
            put_text(out, &pointer.namespace)?;
            append(out, &pointer.id.0)
        }
        Bson::Null | Bson::Undefined | Bson::MaxKey | Bson::MinKey => append(out, &[]),
    }
}

// Appends a document.
#[cycle(encode)]
fn put_document(out: &mut Vec<u8>, document: &Document) -> Result<(), EncodeError>
    ensures { Puts result (encode_fault (trees.document (pairs_of document.now))) out.old.items out.new.items (enc (trees.document (pairs_of document.now))) }
{
    let start = out.len();
    append(out, &[0; 4])?;
    let mut pairs = document.iter();
    while let Some((key, value)) = pairs.next() {
        put_key(out, value.element_type(), key)?;
        put_value(out, value)?;
    }
    append(out, &[0])?;
    set_length(out, start);
    Ok(())
}

// Appends an array, whose keys are the decimal indexes from 0.
#[cycle(encode)]
fn put_array(out: &mut Vec<u8>, values: &[Bson]) -> Result<(), EncodeError>
    ensures { Puts result (encode_fault (trees.array (trees_of values.now))) out.old.items out.new.items (enc (trees.array (trees_of values.now))) }
{
    let start = out.len();
    append(out, &[0; 4])?;
    for index in 0..values.len() {
        let value = &values[index];
        put_index(out, value.element_type(), index)?;
        put_value(out, value)?;
    }
    append(out, &[0])?;
    set_length(out, start);
    Ok(())
}

// Appends code with its scope.
#[cycle(encode)]
fn put_scoped(out: &mut Vec<u8>, code: &str, scope: &Document) -> Result<(), EncodeError>
    ensures { Puts result (encode_fault (trees.javascript_code_with_scope code.now (pairs_of scope.now))) out.old.items out.new.items (enc (trees.javascript_code_with_scope code.now (pairs_of scope.now))) }
{
    let start = out.len();
    append(out, &[0; 4])?;
    put_text(out, code)?;
    put_document(out, scope)?;
    set_length(out, start);
    Ok(())
}

// Appends the kind and the key of an element.
fn put_key(out: &mut Vec<u8>, kind: ElementType, key: &str) -> Result<(), EncodeError>
    ensures { Puts result (zero_fault key.now) out.old.items out.new.items (byte kind ∷ (key.now ++ 0 ∷ [])) }
{
    if has_zero(key) {
        return Err(zero_in(*out.allocator(), key));
    }
    put_front(out, kind, key)
}

// Appends the kind of an element of an array, and its index as the key.
fn put_index(out: &mut Vec<u8>, kind: ElementType, index: usize) -> Result<(), EncodeError>
    ensures { Puts result None out.old.items out.new.items (byte kind ∷ (decimal index ++ 0 ∷ [])) }
{
    let mut digits = itoa::Buffer::new();
    put_front(out, kind, digits.format(index))
}

// Appends a kind, and a key closed by a zero.
fn put_front(out: &mut Vec<u8>, kind: ElementType, key: &str) -> Result<(), EncodeError>
    ensures { Puts result None out.old.items out.new.items (byte kind ∷ (key.now ++ 0 ∷ [])) }
{
    append(out, &[kind.byte()])?;
    append(out, key.as_bytes())?;
    append(out, &[0])
}

// Appends a text: its length, its bytes, a zero.
fn put_text(out: &mut Vec<u8>, text: &str) -> Result<(), EncodeError>
    ensures { Puts result None out.old.items out.new.items (closed_text text.now) }
{
    append(out, &length_bytes(text.len() + 1))?;
    append(out, text.as_bytes())?;
    append(out, &[0])
}

// Appends a boolean.
fn put_boolean(out: &mut Vec<u8>, truth: bool) -> Result<(), EncodeError>
    ensures { Puts result None out.old.items out.new.items (enc (trees.boolean truth)) }
{
    append(out, if truth { &[1] } else { &[0] })
}

// Appends a number of 32 bits.
#[tactic(auto, unfolding(crate::specs::Tree::le32))]
fn put_int32(out: &mut Vec<u8>, number: i32) -> Result<(), EncodeError>
    ensures { Puts result None out.old.items out.new.items (enc (trees.int32 number)) }
{
    append(out, &number.to_le_bytes())
}

// Appends a number of 64 bits.
#[tactic(auto, unfolding(crate::specs::Tree::le64))]
fn put_int64(out: &mut Vec<u8>, number: i64) -> Result<(), EncodeError>
    ensures { Puts result None out.old.items out.new.items (enc (trees.int64 number)) }
{
    append(out, &number.to_le_bytes())
}

// Appends a timestamp: its increment, and then its time.
#[tactic(auto, unfolding(crate::specs::Tree::le32))]
fn put_timestamp(out: &mut Vec<u8>, timestamp: Timestamp) -> Result<(), EncodeError>
    ensures { Puts result None out.old.items out.new.items (enc (trees.timestamp timestamp.time timestamp.increment)) }
{
    append(out, &timestamp.increment.to_le_bytes())?;
    append(out, &timestamp.time.to_le_bytes())
}

// Appends a regular expression.
fn put_regex(out: &mut Vec<u8>, regex: &Regex) -> Result<(), EncodeError>
    ensures { Puts result (encode_fault (trees.regular_expression regex.now.pattern regex.now.options)) out.old.items out.new.items (enc (trees.regular_expression regex.now.pattern regex.now.options)) }
{
    put_part(out, regex.pattern())?;
    put_part(out, regex.options())
}

// Appends a part of a regular expression, closed by a zero.
fn put_part(out: &mut Vec<u8>, part: &str) -> Result<(), EncodeError>
    ensures { Puts result (zero_fault part.now) out.old.items out.new.items (part.now ++ 0 ∷ []) }
{
    if has_zero(part) {
        return Err(zero_in(*out.allocator(), part));
    }
    append(out, part.as_bytes())?;
    append(out, &[0])
}

// Appends a binary.
#[tactic(auto, using(std::proofs::lemmas::Bool::Decides::nat_tests))]
fn put_binary(out: &mut Vec<u8>, subtype: u8, bytes: &[u8]) -> Result<(), EncodeError>
    ensures { Puts result (binary_fault subtype bytes.now) out.old.items out.new.items (enc (trees.binary subtype bytes.now)) }
{
    if subtype == 2 {
        return put_old_binary(out, bytes);
    }
    if bytes.len() > MAX_BINARY {
        return Err(EncodeError::BinaryTooLong(bytes.len() as u64));
    }
    append(out, &length_bytes(bytes.len()))?;
    append(out, &[subtype])?;
    append(out, bytes)
}

// Appends a binary of the old subtype 2, which has a second length.
#[tactic(auto, using(std::proofs::lemmas::Bool::Decides::nat_tests))]
fn put_old_binary(out: &mut Vec<u8>, bytes: &[u8]) -> Result<(), EncodeError>
    ensures { Puts result (binary_fault 2 bytes.now) out.old.items out.new.items (enc (trees.binary 2 bytes.now)) }
{
    let behind = bytes.len() + 4;
    if behind > MAX_BINARY {
        return Err(EncodeError::BinaryTooLong(behind as u64));
    }
    append(out, &length_bytes(behind))?;
    append(out, &[2])?;
    append(out, &length_bytes(bytes.len()))?;
    append(out, bytes)
}

// Appends bytes.
#[inline(always)]
fn append(out: &mut Vec<u8>, piece: &[u8]) -> Result<(), EncodeError>
    ensures { Puts result None out.old.items out.new.items piece.now }
{
    out.extend_from_slice(piece)?;
    Ok(())
}

// Writes how many bytes there are from a place on into the first four of them.
fn set_length(out: &mut Vec<u8>, start: usize)
    requires { start + 4 ≤ length out.old.items }
    ensures { out.new.items ≡ take start out.old.items ++ (le32 (length out.old.items - start) ++ drop (start + 4) out.old.items) }
{
    let count = length_bytes(out.len() - start);
    out[start..start + 4].copy_from_slice(&count);
}

// The four low bytes of a length. Those of a document that is too long are of no use, and it is refused at the end.
#[tactic(auto, unfolding(crate::specs::Tree::le32))]
fn length_bytes(length: usize) -> [u8; 4]
    ensures { result ≡ le32 length }
{
    let [a, b, c, d, ..] = length.to_le_bytes();
    [a, b, c, d]
}

// That a text holds a zero.
#[inline(never)]
fn zero_in(alloc: Global, text: &str) -> EncodeError
    ensures { TellsZero result text.now }
{
    match String::from_str(alloc, text) {
        Ok(text) => EncodeError::KeyZero(text),
        Err(_) => EncodeError::NoMemory,
    }
}
