// Whether a document is sound, and how many bytes it takes.
ghost use Rattle.std.specs.Prelude.{◌≡◌, ◌+◌, ◌^◌, ◌<◌, ◌≤◌, ◌↔◌, true, FitsSigned, IsTrue, SomeIff, length, string_bytes};
ghost use Rattle.std.specs.Fmt.{decimal};
ghost use Rattle.std.specs.Int.{w32, w64};
ghost use Rattle.std.specs.Str.{is_utf8};
ghost use Rattle.bson_base.specs.BsonView.{tree_of, trees_of, pairs_of, binary_of, regex_of, pointer_of, scoped_of};
ghost use Rattle.bson_base.specs.Instant.{millis};
ghost use Rattle.bson_base.specs.Sound.{HasBytes, IsSound, max_bytes};
ghost use Rattle.bson_kinds.specs.Text.{AreBytes, IsPlainName};
ghost use Rattle.bson_base.specs.Tree as tree;
ghost use Rattle.bson_base.specs.Tree.{enc, elements, array_elements};
ghost use Rattle.bson_infer_run.specs.Fits.{Fits, PairsFit, TreesFit};

use bson_base::{
    Binary, Bson, DateTime, DbPointer, Document, JavaScriptCodeWithScope, MAX_BINARY,
    MAX_NESTING_LEVEL, ObjectId, Regex, Timestamp, has_zero,
};

/// The most bytes of a document.
pub(crate) const MOST: usize = 2147483647;

/// Whether a document is sound: within the limits of its levels and bytes, each key a plain name, each part as its kind asks.
pub(crate) fn is_sound(document: &Document) -> bool
    ensures { IsTrue result ↔ IsSound (tree.document (pairs_of document.now)) }
{
    size_of_document(document, MAX_NESTING_LEVEL).is_some()
}

// So many bytes, where a document may have as many.
fn within(size: usize) -> Option<usize>
    ensures { SomeIff result (size ≤ max_bytes) size }
{
    if size > MOST {
        return None;
    }
    Some(size)
}

// The bytes of a value that has so many levels at most and may be in a sound document.
#[cycle(sound)]
#[tactic(auto, using(bson_base::proofs::Rows::row_items, bson_base::proofs::Rows::row_pairs))]
fn size_of(value: &Bson, levels: u32) -> Option<usize>
    ensures { SomeIff result (Fits levels (tree_of value.now)) (length (enc (tree_of value.now))) }
{
    match value {
        Bson::Double(number) => Some(size_of_bytes(&number.0)),
        Bson::String(text) => size_of_text(text.as_str()),
        Bson::Array(values) => size_of_array(values, levels),
        Bson::Document(document) => size_of_document(document, levels),
        Bson::Boolean(_) => Some(1),
        Bson::Null | Bson::Undefined | Bson::MaxKey | Bson::MinKey => Some(0),
        Bson::RegularExpression(regex) => size_of_regex(regex),
        Bson::JavaScriptCode(code) => size_of_text(code.as_str()),
        Bson::JavaScriptCodeWithScope(scoped) => size_of_scoped(scoped, levels),
        Bson::Int32(number) => Some(size_of_int32(number)),
        Bson::Int64(number) => Some(size_of_int64(number)),
        Bson::Timestamp(time) => Some(size_of_timestamp(time)),
        Bson::Binary(binary) => size_of_binary(binary),
        Bson::ObjectId(id) => Some(size_of_id(id)),
        Bson::DateTime(time) => Some(size_of_time(time)),
        Bson::Symbol(text) => size_of_text(text.as_str()),
        Bson::Decimal128(number) => Some(size_of_bytes(&number.0)),
        Bson::DbPointer(pointer) => size_of_pointer(pointer),
    }
}

// The bytes themselves.
pub(crate) fn size_of_bytes(bytes: &[u8]) -> usize
    ensures size { result ≡ length bytes.now }
    ensures bytes { AreBytes bytes.now }
{
    bytes.len()
}

// A number of 32 bits.
pub(crate) fn size_of_int32(number: &i32) -> usize
    ensures range { FitsSigned w32 number.now }
    ensures size { result ≡ 4 }
{
    let _number = *number;
    4
}

// A number of 64 bits.
pub(crate) fn size_of_int64(number: &i64) -> usize
    ensures range { FitsSigned w64 number.now }
    ensures size { result ≡ 8 }
{
    let _number = *number;
    8
}

// A time.
pub(crate) fn size_of_time(time: &DateTime) -> usize
    ensures range { FitsSigned w64 (millis time.now) }
    ensures size { result ≡ 8 }
{
    let _milliseconds = time.timestamp_millis();
    8
}

// Two numbers of 32 bits.
pub(crate) fn size_of_timestamp(timestamp: &Timestamp) -> usize
    ensures time { timestamp.now.time < 2 ^ 32 }
    ensures increment { timestamp.now.increment < 2 ^ 32 }
    ensures size { result ≡ 8 }
{
    let (_time, _increment) = (timestamp.time, timestamp.increment);
    8
}

// Tells the prover that a text is UTF-8.
fn known_text(text: &str)
    ensures { is_utf8 text.now ≡ true }
{}

// A text.
pub(crate) fn size_of_text(text: &str) -> Option<usize>
    ensures size { SomeIff result (length text.now + 5 ≤ max_bytes) (length text.now + 5) }
    ensures text { is_utf8 text.now ≡ true }
{
    known_text(text);
    within(text.len().saturating_add(5))
}

// Bytes with a subtype.
fn size_of_binary(binary: &Binary) -> Option<usize>
    ensures { SomeIff result (Fits 0 (binary_of binary.now)) (length (enc (binary_of binary.now))) }
{
    let len = size_of_bytes(binary.bytes.as_slice());
    let more = if binary.subtype.0 == 2 { 4 } else { 0 };
    if len > MAX_BINARY - more {
        return None;
    }
    Some(len + more + 5)
}

// A regular expression.
fn size_of_regex(regex: &Regex) -> Option<usize>
    ensures { SomeIff result (Fits 0 (regex_of regex.now)) (length (enc (regex_of regex.now))) }
{
    let (pattern, options) = (regex.pattern(), regex.options());
    if has_zero(pattern) || has_zero(options) {
        return None;
    }
    known_text(pattern);
    known_text(options);
    within(
        pattern
            .len()
            .saturating_add(options.len())
            .saturating_add(2),
    )
}

// Twelve bytes that name a document.
pub(crate) fn size_of_id(id: &ObjectId) -> usize
    ensures bytes { HasBytes 12 id.now.0 }
    ensures size { result ≡ 12 }
{
    size_of_bytes(&id.0)
}

// A reference to a document.
fn size_of_pointer(pointer: &DbPointer) -> Option<usize>
    ensures { SomeIff result (Fits 0 (pointer_of pointer.now)) (length (enc (pointer_of pointer.now))) }
{
    let namespace = size_of_text(pointer.namespace.as_str())?;
    within(namespace + size_of_id(&pointer.id))
}

// Code with a scope.
#[cycle(sound)]
fn size_of_scoped(scoped: &JavaScriptCodeWithScope, levels: u32) -> Option<usize>
    ensures { SomeIff result (Fits levels (scoped_of scoped.now)) (length (enc (scoped_of scoped.now))) }
{
    let code = size_of_text(scoped.code.as_str())?;
    let scope = size_of_document(&scoped.scope, levels)?;
    within(code + scope + 4)
}

// A document.
#[cycle(sound)]
fn size_of_document(document: &Document, levels: u32) -> Option<usize>
    ensures { SomeIff result (Fits levels (tree.document (pairs_of document.now))) (length (enc (tree.document (pairs_of document.now)))) }
{
    let elements = size_of_pairs(document, levels.checked_sub(1)?)?;
    within(elements + 5)
}

// An array.
#[cycle(sound)]
fn size_of_array(values: &[Bson], levels: u32) -> Option<usize>
    ensures { SomeIff result (Fits levels (tree.array (trees_of values.now))) (length (enc (tree.array (trees_of values.now)))) }
{
    let elements = size_of_items(values, levels.checked_sub(1)?)?;
    within(elements + 5)
}

// The elements of a document.
#[cycle(sound)]
fn size_of_pairs(document: &Document, levels: u32) -> Option<usize>
    ensures { SomeIff result (PairsFit levels (pairs_of document.now)) (length (elements (pairs_of document.now))) }
{
    let _len = document.len();
    let mut total = 0;
    for (key, value) in document.iter() {
        let key = size_of_key(key.as_str())?;
        let value = size_of(value, levels)?;
        total = within(total + key + value)?;
    }
    Some(total)
}

// The byte of a kind, a key and the zero that closes it, where the key is a plain name.
pub(crate) fn size_of_key(key: &str) -> Option<usize>
    ensures { SomeIff result (IsPlainName key.now × (length key.now + 2 ≤ max_bytes)) (length key.now + 2) }
{
    if has_zero(key) || key.starts_with('$') {
        return None;
    }
    known_text(key);
    within(key.len().saturating_add(2))
}

// The elements of an array.
#[cycle(sound)]
fn size_of_items(values: &[Bson], levels: u32) -> Option<usize>
    ensures { SomeIff result (TreesFit levels 0 (trees_of values.now)) (length (array_elements 0 (trees_of values.now))) }
{
    let mut total = 0;
    for (i, value) in values.iter().enumerate() {
        let value = size_of(value, levels)?;
        total = within(total + size_of_index(i) + value)?;
    }
    Some(total)
}

// The byte of a kind, an index as a key and the zero that closes it.
fn size_of_index(i: usize) -> usize
    ensures size { result ≡ length (decimal i) + 2 }
    ensures short { result ≤ 42 }
{
    let mut digits = itoa::Buffer::new();
    digits.format(i).len() + 2
}
