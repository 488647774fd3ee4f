// The parts of a value in its bytes, or its first fault.
ghost use Rattle.std.specs.Prelude.{◌≡◌, ◌≤◌, pos, length, drop, IfOk};
ghost use Rattle.bson_kinds.specs.Outcome.{result_map};
ghost use Rattle.bson_rawdoc.specs.DocumentView.{document_bytes, array_bytes};
ghost use Rattle.bson_rawdoc.specs.Extent as extents;
ghost use Rattle.bson_rawdoc.specs.Numbers as numbers;
ghost use Rattle.bson_rawdoc.specs.RawValue as raw;
ghost use Rattle.bson_rawdoc.specs.Unjudged as unjudged;
ghost use Rattle.bson_rawdoc.specs.ValueView.{raw_value};

use crate::array::RawArray;
use crate::document::RawDocument;
use crate::extent::two_texts_in;
use crate::raw::Error;
use crate::reading::{fixed, inside, int32_in, is_closed, uint32_in};
use crate::utf8::is_utf8;
use crate::value::RawBsonRef;
use bson_base::{BinarySubtype, ObjectId, Timestamp};
use bson_kinds::ElementType;

// These bytes as a text.
#[inline(always)]
fn utf8_in(bytes: &[u8]) -> Result<&str, Error>
    ensures { result_map (λ t. t.now) result ≡ raw.utf8_in bytes.now }
{
    if !is_utf8(bytes) {
        return Err(Error::NotUtf8);
    }
    Ok(unsafe { str::from_utf8_unchecked(bytes) })
}

// The bytes of a text, between its length and the zero behind it.
#[inline(always)]
pub(crate) fn closed_text(bytes: &[u8]) -> Result<&[u8], Error>
    requires { 5 ≤ length bytes.now }
    ensures { result_map (λ t. t.now) result ≡ unjudged.text_in bytes.now }
{
    if !is_closed(bytes) {
        return Err(Error::TextUnclosed);
    }
    Ok(inside(bytes))
}

// The text between its length and the zero behind it.
pub(crate) fn text_in(bytes: &[u8]) -> Result<&str, Error>
    requires { 5 ≤ length bytes.now }
    ensures { result_map (λ t. t.now) result ≡ raw.text_in bytes.now }
{
    utf8_in(closed_text(bytes)?)
}

// A document that takes as many bytes as it announces.
pub(crate) fn document_in(bytes: &[u8]) -> Result<RawDocument<'_>, Error>
    requires long { 5 ≤ length bytes.now }
    requires announced { numbers.int32_in bytes.now ≡ pos (length bytes.now) }
    ensures { result_map document_bytes result ≡ raw.closed_in bytes.now }
{
    match RawDocument::from_bytes(bytes) {
        Ok(document) => Ok(document),
        Err(_) => Err(Error::ValueUnclosed),
    }
}

// An array that takes as many bytes as it announces.
pub(crate) fn array_in(bytes: &[u8]) -> Result<RawArray<'_>, Error>
    requires long { 5 ≤ length bytes.now }
    requires announced { numbers.int32_in bytes.now ≡ pos (length bytes.now) }
    ensures { result_map array_bytes result ≡ raw.closed_in bytes.now }
{
    let document = document_in(bytes)?;
    Ok(RawArray { document })
}

// A binary: its length, its subtype, and then its bytes.
pub(crate) fn binary_in(bytes: &[u8]) -> Result<RawBsonRef<'_>, Error>
    requires { 5 ≤ length bytes.now }
    ensures { result_map raw_value result ≡ raw.value_in ElementType.Binary bytes.now }
{
    let subtype = BinarySubtype(bytes[4]);
    let bytes = bytes_of_subtype(subtype.0, &bytes[5..])?;
    Ok(RawBsonRef::Binary { subtype, bytes })
}

// The bytes of a binary of this subtype, behind its subtype.
fn bytes_of_subtype(subtype: u8, counted: &[u8]) -> Result<&[u8], Error>
    ensures { result_map (λ b. b.now) result ≡ raw.bytes_of_subtype subtype counted.now }
{
    if subtype == 2 {
        return old_binary_in(counted);
    }
    Ok(counted)
}

// The bytes of the old subtype, behind their second length.
fn old_binary_in(counted: &[u8]) -> Result<&[u8], Error>
    ensures { result_map (λ b. b.now) result ≡ raw.old_binary_in counted.now }
{
    if counted.len() < 4 {
        return Err(Error::InnerLength);
    }
    let bytes = &counted[4..];
    if i64::from(int32_in(counted)) != bytes.len() as i64 {
        return Err(Error::InnerLength);
    }
    Ok(bytes)
}

// A boolean: 0 or 1.
pub(crate) fn boolean_in(byte: u8) -> Result<bool, Error>
    ensures { result ≡ raw.boolean_of byte }
{
    match byte {
        0 => Ok(false),
        1 => Ok(true),
        _ => Err(Error::BadBoolean(byte)),
    }
}

// A pattern and its options.
pub(crate) fn regex_in(bytes: &[u8]) -> Result<RawBsonRef<'_>, Error>
    ensures { result_map raw_value result ≡ raw.value_in ElementType.RegularExpression bytes.now }
{
    let Some((pattern, options)) = two_texts_in(bytes) else {
        return Err(Error::BadExtent);
    };
    let pattern = utf8_in(pattern)?;
    let options = utf8_in(options)?;
    Ok(RawBsonRef::RegularExpression { pattern, options })
}

// A text, and an ObjectId behind it.
pub(crate) fn db_pointer_in(bytes: &[u8]) -> Result<RawBsonRef<'_>, Error>
    requires { 17 ≤ length bytes.now }
    ensures { result_map raw_value result ≡ raw.value_in ElementType.DbPointer bytes.now }
{
    let (text, id) = bytes.split_at(bytes.len() - 12);
    let namespace = text_in(text)?;
    Ok(RawBsonRef::DbPointer {
        namespace,
        id: ObjectId(fixed(id)),
    })
}

// A code and the scope behind it, each with all of its bytes.
pub(crate) fn scoped_parts(bytes: &[u8]) -> Result<(&[u8], &[u8]), Error>
    requires { 4 ≤ length bytes.now }
    ensures parts { result_map (λ p. (p.0.now, p.1.now)) result ≡ raw.scoped_parts (numbers.int32_in bytes.now) bytes.now }
    ensures text { IfOk result (λ p. 5 ≤ length p.0.now) }
    ensures scope { IfOk result (λ p. 5 ≤ length p.1.now) }
    ensures announced { IfOk result (λ p. numbers.int32_in p.1.now ≡ pos (length p.1.now)) }
{
    let Ok(length) = u32::try_from(int32_in(bytes)) else {
        return Err(Error::ScopeTotal);
    };
    let code_end = length as usize + 4;
    if length < 1 || bytes.len() < code_end + 5 {
        return Err(Error::ScopeTotal);
    }
    let (text, scope) = bytes.split_at(code_end);
    if i64::from(int32_in(scope)) != scope.len() as i64 {
        return Err(Error::ScopeTotal);
    }
    Ok((text, scope))
}

// The code and the scope behind the total length.
pub(crate) fn scoped_code_in(bytes: &[u8]) -> Result<RawBsonRef<'_>, Error>
    requires { 14 ≤ length bytes.now }
    ensures { result_map raw_value result ≡ raw.value_in ElementType.JavaScriptCodeWithScope bytes.now }
{
    let (text, scope) = scoped_parts(&bytes[4..])?;
    let code = text_in(text)?;
    let scope = document_in(scope)?;
    Ok(RawBsonRef::JavaScriptCodeWithScope { code, scope })
}

// A timestamp: its increment, and then its time.
pub(crate) fn timestamp_in(bytes: &[u8]) -> Timestamp
    requires { 8 ≤ length bytes.now }
    ensures time { result.time ≡ numbers.uint32_in (drop 4 bytes.now) }
    ensures increment { result.increment ≡ numbers.uint32_in bytes.now }
{
    Timestamp {
        time: uint32_in(&bytes[4..]),
        increment: uint32_in(bytes),
    }
}
