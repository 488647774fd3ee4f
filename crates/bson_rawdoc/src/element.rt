ghost use Rattle.std.specs.Prelude.{◌≡◌, false, Ok, length, option_map};
ghost use Rattle.bson_kinds.specs.Kind.{of_byte};
ghost use Rattle.bson_kinds.specs.Outcome.{result_map};
ghost use Rattle.bson_rawdoc.specs.DocumentView.{document_bytes};
ghost use Rattle.bson_rawdoc.specs.Extent.{extent};
ghost use Rattle.bson_rawdoc.specs.JsonKinds.{is_of_json};
ghost use Rattle.bson_rawdoc.specs.Lossy.{MendsAs};
ghost use Rattle.bson_rawdoc.specs.Walk as walk;
ghost use Rattle.bson_rawdoc.specs.RawValue.{value_in};
ghost use Rattle.bson_rawdoc.specs.Unjudged.{unjudged_in, scope_in};
ghost use Rattle.bson_rawdoc.specs.UnjudgedView.{unjudged_value};
ghost use Rattle.bson_rawdoc.specs.ValueView.{raw_value};

use crate::document::RawDocument;
use crate::extent::extent;
use crate::parts::{
    array_in, binary_in, boolean_in, db_pointer_in, document_in, regex_in, scoped_code_in, text_in,
    timestamp_in,
};
use crate::raw::Error;
use crate::reading::{fixed, int32_in, int64_in};
use crate::unjudged::{Unjudged, scope_of, unjudged_in};
use crate::utf8::key_len;
use crate::value::RawBsonRef;
use bson_base::{Bson, DateTime, Decimal128, Double, ObjectId};
use bson_kinds::ElementType;
use std::alloc::Global;
use std::marker::Model;

/// An element of a document: its kind, its key, and the bytes of its value.
#[derive(Debug, Drop)]
pub struct RawElement<'a> {
    kind: ElementType,
    key: &'a str,
    slice: &'a [u8],
}

impl<'a> Model for RawElement<'a> {
    ghost use Rattle.std.specs.Prelude.{◌≡◌, Ok, length};
    ghost use Rattle.bson_rawdoc.specs.Extent.{extent};
    ghost use Rattle.bson_rawdoc.specs.Walk.{Element};
    ghost use Rattle.bson_rawdoc.specs.Prover.Stored.{coded_element};

    ghost Value = { Element };

    ghost coded = { coded_element };

    ghost view = { λ e. record { kind = e.kind; key = e.key.now; value = e.slice.now } };

    ghost invariant = { λ e. extent e.kind e.slice.now ≡ Ok (length e.slice.now) };
}

impl<'a> RawElement<'a> {
    /// The key, borrowed from the document.
    pub fn key(&self) -> &'a str
        ensures key { result.now ≡ self.now.key }
    {
        self.key
    }

    /// The kind of the value.
    pub fn element_type(&self) -> ElementType
        ensures kind { result ≡ self.now.kind }
    {
        self.kind
    }

    /// The bytes of the value, borrowed from the document.
    pub fn slice(&self) -> &'a [u8]
        ensures slice { result.now ≡ self.now.value }
    {
        self.slice
    }

    /// The same element once more.
    #[inline(always)]
    pub fn clone(&self) -> RawElement<'a>
        ensures same { result ≡ self.now }
    {
        RawElement {
            kind: self.kind,
            key: self.key,
            slice: self.slice,
        }
    }

    /// The value.
    ///
    /// # Errors
    ///
    /// The first fault of the value.
    ///
    /// - Of a text, a code, a symbol and a DbPointer: `TextUnclosed` where the text's last byte is not zero, then `NotUtf8`
    ///   where it is not UTF-8.
    /// - Of a document and an array: `ValueUnclosed` where the last byte is not zero.
    /// - Of a binary of subtype 2: `InnerLength` where no second length is before its bytes, or one that is not their count.
    /// - Of a boolean: `BadBoolean` where its byte is neither 0 nor 1.
    /// - Of a regular expression: `NotUtf8` where its pattern or its options are not UTF-8.
    /// - Of a code with scope: `ScopeTotal` where the code's length is under 1 or leaves the scope less than five bytes, or the
    ///   scope announces another length than what is left; then `TextUnclosed` and `NotUtf8` of the code; then
    ///   `ValueUnclosed` of the scope.
    #[inline(always)]
    pub fn value(&self) -> Result<RawBsonRef<'a>, Error>
        ensures value { result_map raw_value result ≡ value_in self.now.kind self.now.value }
    {
        let bytes = self.slice;
        Ok(match self.kind {
            ElementType::Double => RawBsonRef::Double(Double(fixed(bytes))),
            ElementType::String => RawBsonRef::String(text_in(bytes)?),
            ElementType::EmbeddedDocument => RawBsonRef::Document(document_in(bytes)?),
            ElementType::Array => RawBsonRef::Array(array_in(bytes)?),
            ElementType::Boolean => RawBsonRef::Boolean(boolean_in(bytes[0])?),
            ElementType::Null => RawBsonRef::Null,
            ElementType::Int32 => RawBsonRef::Int32(int32_in(bytes)),
            ElementType::Int64 => RawBsonRef::Int64(int64_in(bytes)),
            other => return value_beyond_json(other, bytes),
        })
    }

    /// The value before its texts are judged; `None` at a kind without texts.
    ///
    /// # Errors
    ///
    /// The first fault of a value with texts, as [`value`](RawElement::value) has it, but for `NotUtf8`.
    pub fn unjudged(&self) -> Result<Option<Unjudged<'a>>, Error>
        ensures value { result_map (option_map unjudged_value) result ≡ unjudged_in self.now.kind self.now.value }
    {
        unjudged_in(self.kind, self.slice)
    }

    /// The value with texts of its own, in which U+FFFD stands for each ill-formed sequence; `None` at a kind without texts. The options of a regular expression
    /// are in order, and the scope of a code is empty: [`scope`](RawElement::scope) has it.
    ///
    /// # Errors
    ///
    /// The first of these that applies: the first fault of a value with texts, as [`value`](RawElement::value) has it, but for `NotUtf8`; `NoMemory` where memory
    /// runs out.
    pub fn value_utf8_lossy(&self, alloc: Global) -> Result<Option<Bson>, Error>
        ensures mended { MendsAs result (unjudged_in self.now.kind self.now.value) }
    {
        match self.unjudged()? {
            Some(value) => Ok(Some(value.to_bson_lossy(alloc)?)),
            None => Ok(None),
        }
    }

    /// The scope of a code with scope that has no fault but that its code is not UTF-8; `None` for any other value.
    pub fn scope(&self) -> Option<RawDocument<'a>>
        ensures scope { option_map document_bytes result ≡ scope_in self.now.kind self.now.value }
    {
        match self.unjudged() {
            Ok(value) => scope_of(value),
            Err(_) => None,
        }
    }
}

// The value of a kind that JSON lacks. It is separate so that those of JSON's kinds pay for none of its locals.
#[inline(never)]
fn value_beyond_json(kind: ElementType, bytes: &[u8]) -> Result<RawBsonRef<'_>, Error>
    requires other { is_of_json kind ≡ false }
    requires whole { extent kind bytes.now ≡ Ok (length bytes.now) }
    ensures value { result_map raw_value result ≡ value_in kind bytes.now }
{
    Ok(match kind {
        ElementType::Binary => binary_in(bytes)?,
        ElementType::Undefined => RawBsonRef::Undefined,
        ElementType::ObjectId => RawBsonRef::ObjectId(ObjectId(fixed(bytes))),
        ElementType::DateTime => RawBsonRef::DateTime(DateTime::from_millis(int64_in(bytes))),
        ElementType::RegularExpression => regex_in(bytes)?,
        ElementType::DbPointer => db_pointer_in(bytes)?,
        ElementType::JavaScriptCode => RawBsonRef::JavaScriptCode(text_in(bytes)?),
        ElementType::Symbol => RawBsonRef::Symbol(text_in(bytes)?),
        ElementType::JavaScriptCodeWithScope => scoped_code_in(bytes)?,
        ElementType::Timestamp => RawBsonRef::Timestamp(timestamp_in(bytes)),
        ElementType::Decimal128 => RawBsonRef::Decimal128(Decimal128(fixed(bytes))),
        ElementType::MaxKey => RawBsonRef::MaxKey,
        ElementType::MinKey => RawBsonRef::MinKey,
        ElementType::Double
        | ElementType::String
        | ElementType::EmbeddedDocument
        | ElementType::Array
        | ElementType::Boolean
        | ElementType::Null
        | ElementType::Int32
        | ElementType::Int64 => unreachable!(),
    })
}

// The element whose value begins these bytes, and the bytes behind it.
#[inline(always)]
fn with_value<'a>(
    key: &'a str,
    kind: ElementType,
    bytes: &'a [u8],
) -> Result<(RawElement<'a>, &'a [u8]), Error>
    ensures { result_map (λ x. (x.0, x.1.now)) result ≡ walk.with_value key.now kind bytes.now }
{
    let length = extent(kind, bytes)?;
    if bytes.len() < length {
        return Err(Error::BadExtent);
    }
    let (slice, rest) = bytes.split_at(length);
    Ok((RawElement { kind, key, slice }, rest))
}

// The element of this kind byte and this key, whose value begins these bytes, and the bytes behind it.
#[inline(always)]
fn of_kind<'a>(byte: u8, key: &'a str, bytes: &'a [u8]) -> Result<(RawElement<'a>, &'a [u8]), Error>
    ensures { result_map (λ x. (x.0, x.1.now)) result ≡ walk.of_kind byte key.now (of_byte byte) bytes.now }
{
    match ElementType::from_byte(byte) {
        Some(kind) => with_value(key, kind, bytes),
        None => Err(Error::UnknownKind(byte)),
    }
}

// The element of this kind byte whose key begins these bytes, and the bytes behind it.
#[inline(always)]
pub(crate) fn element_at(byte: u8, bytes: &[u8]) -> Result<(RawElement<'_>, &[u8]), Error>
    ensures { result_map (λ x. (x.0, x.1.now)) result ≡ walk.element_at byte bytes.now }
{
    let len = key_len(bytes)?;
    let key = unsafe { str::from_utf8_unchecked(&bytes[..len]) };
    of_kind(byte, key, &bytes[len + 1..])
}
