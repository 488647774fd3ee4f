// What is built of a value in memory, as it is at `rawbson`: documents, arrays and scopes in their bytes. Nothing of it is borrowed.
ghost use Rattle.std.specs.Prelude.{◌≡◌, ◌+◌, ◌≤◌, drop, length, string_bytes, Ok, IfOk};
ghost use Rattle.bson_base.specs.Sound.{max_bytes};
ghost use Rattle.bson_base.specs.Tree as trees;
ghost use Rattle.bson_base.specs.Tree.{Tree, Pairs, enc, kind};
ghost use Rattle.bson_rawdoc.specs.Envelope.{envelope};
ghost use Rattle.bson_kinds.specs.Piece.{made};
ghost use Rattle.bson_values.specs.ByteStrView.{bytes_view};
ghost use Rattle.bson_datum.specs.MarkedView.{marked};
ghost use Rattle.bson_values.specs.Value as values;
ghost use Rattle.bson_laws.specs.Assembled.{raw_bytes};
ghost use Rattle.bson_laws.specs.ReadsRaw.{scoped_code};
ghost use Rattle.bson_laws.specs.TreeRaw.{built_value};
ghost use Rattle.bson_met.specs.Gives.{Reaches};
ghost use Rattle.bson_raw_parts.specs.BodyView.{body_tree};
ghost use Rattle.bson_raw_parts.specs.BuiltView.{IsContainer, IsWhole, IsScopedCode, raw_made};
ghost use Rattle.bson_raw_parts.specs.RawValueView.{raw_view};

use crate::body::Body;
use crate::raw_value::RawValue;
use bson_datum::{Datum, RawArr, RawDoc};
use bson_kinds::ElementType;
use bson_met::{Reading, refused};
use bson_rawdoc::{RawArrayBuf, RawDocumentBuf};
use bson_values::{ByteStr, Cause, Text};
use bson_wrapped::data;
use std::alloc::{AllocError, Global};

/// How many bytes of a code with a scope are beside its text and its scope, and in front of the scope: two lengths, and the zero behind the text.
const AROUND_CODE: usize = 9;

// ---- values that are not in their bytes

/// What a first key stands for.
pub fn body_value<'x>(alloc: Global, body: Body<'_>) -> Result<Datum<'x>, AllocError>
    ensures { IfOk result (λ d. built_value (body_tree body.entry) ≡ Ok (marked d)) }
{
    match body {
        Body::ObjectId(id) => data::object_id(alloc, &id.0),
        Body::Symbol(text) => data::symbol(alloc, String::from_str(alloc, text)?),
        Body::Decimal128(number) => data::decimal128(alloc, number.0.to_vec(alloc)?),
        Body::RegularExpression(pattern, options) => { regular_expression(alloc, pattern, options) }
        Body::Undefined => data::undefined(alloc),
        Body::Binary(subtype, bytes) => binary(alloc, subtype, bytes),
        Body::DateTime(time) => data::date_time(alloc, time),
        Body::Timestamp(timestamp) => data::timestamp(alloc, timestamp),
        Body::MinKey => data::min_key(alloc),
        Body::MaxKey => data::max_key(alloc),
        Body::DbPointer(namespace, id) => {
            data::db_pointer(alloc, String::from_str(alloc, namespace)?, id)
        }
    }
}

// A regular expression, whose options stay as they are.
fn regular_expression<'x>(
    alloc: Global,
    pattern: &str,
    options: &str,
) -> Result<Datum<'x>, AllocError>
    ensures { IfOk result (λ d. built_value (trees.regular_expression pattern.now options.now) ≡ Ok (marked d)) }
{
    let pattern = String::from_str(alloc, pattern)?;
    let options = String::from_str(alloc, options)?;
    let options = ("options", text(options));
    let body = data::struct_of_two(alloc, "", ("pattern", text(pattern)), options)?;
    data::wrap(alloc, "$regularExpression", body)
}

// A text.
fn text<'x>(text: String) -> Datum<'x>
    ensures { marked result ≡ values.str (made (string_bytes text)) }
{
    Datum::Str(Text::Owned(text))
}

// A binary. One of subtype 0 is its bytes.
#[tactic(auto, using(crate::proofs::BuiltValues::plain_binary, crate::proofs::BuiltValues::other_binary))]
fn binary<'x>(alloc: Global, subtype: u8, content: &[u8]) -> Result<Datum<'x>, AllocError>
    ensures { IfOk result (λ d. built_value (trees.binary subtype content.now) ≡ Ok (marked d)) }
{
    let bytes = data::bytes(alloc, content)?;
    if subtype == 0 {
        return Ok(bytes);
    }
    let body = data::struct_of_two(alloc, "", ("bytes", bytes), ("subType", Datum::U8(subtype)))?;
    data::wrap(alloc, "$binary", body)
}

/// A code.
pub fn code_value<'x>(alloc: Global, code: &str) -> Result<Datum<'x>, AllocError>
    ensures { IfOk result (λ d. built_value (trees.javascript_code code.now) ≡ Ok (marked d)) }
{
    data::code(alloc, String::from_str(alloc, code)?)
}

// ---- values in their bytes

/// A document or an array that was built.
pub fn container_value<'x>(alloc: Global, built: RawValue<'_>) -> Reading<Datum<'x>>
    ensures exact { (t : Tree) → IsWhole t → IsContainer (kind t) → raw_view built.entry ≡ raw_bytes t
        → Reaches marked result (Ok (raw_made (kind t) (made (enc t)))) }
{
    let document = in_envelope(alloc, owned_bytes(alloc, built.bytes)?)?;
    Ok(in_kind(built.element_type, document))
}

// A document or an array, which has these bytes.
fn in_kind<'x>(element_type: ElementType, document: RawDocumentBuf) -> Datum<'x>
    ensures { marked result ≡ raw_made element_type (made document) }
{
    match element_type {
        ElementType::Array => {
            Datum::RawArray(RawArr::Owned(RawArrayBuf::from_document(document)))
        }
        _ => Datum::RawDocument(RawDoc::Owned(document)),
    }
}

/// A code with a scope that was built, whose text is this.
pub fn scoped_value<'x>(alloc: Global, code: &str, bytes: ByteStr<'_>) -> Reading<Datum<'x>>
    requires scoped { IsScopedCode code.now (bytes_view bytes) }
    ensures exact { (scope : Pairs) → bytes_view bytes.entry ≡ enc (trees.javascript_code_with_scope code.now scope) → length (bytes_view bytes.entry) ≤ max_bytes
        → Reaches marked result (Ok (scoped_code (made code.now) (made (enc (trees.document scope))))) }
{
    let whole = owned_bytes(alloc, bytes)?;
    let document = in_envelope(alloc, behind_code(alloc, code, whole.as_slice())?)?;
    Ok(scoped(alloc, code, document)?)
}

// The bytes of the scope of a code whose text is this.
fn behind_code(alloc: Global, code: &str, bytes: &[u8]) -> Result<Vec<u8>, AllocError>
    requires long { length code.now + 9 ≤ length bytes.now }
    ensures { IfOk result (λ v. v.items ≡ drop (length code.now + 9) bytes.now) }
{
    bytes[code.len() + AROUND_CODE..].to_vec(alloc)
}

// A code with a scope in its bytes.
fn scoped<'x>(alloc: Global, code: &str, scope: RawDocumentBuf) -> Result<Datum<'x>, AllocError>
    ensures { IfOk result (λ d. marked d ≡ scoped_code (made code.now) (made scope)) }
{
    let code = ("$code", text(String::from_str(alloc, code)?));
    let scope = ("$scope", Datum::RawDocument(RawDoc::Owned(scope)));
    data::struct_of_two(alloc, "$codeWithScope", code, scope)
}

// The bytes, copied where they are borrowed.
fn owned_bytes(alloc: Global, bytes: ByteStr<'_>) -> Result<Vec<u8>, AllocError>
    ensures { IfOk result (λ v. v.items ≡ bytes_view bytes.entry) }
{
    match bytes {
        ByteStr::Owned(bytes) => Ok(bytes),
        ByteStr::Borrowed(bytes) => bytes.to_vec(alloc),
    }
}

// The document of bytes that pass the test of its envelope.
fn in_envelope(alloc: Global, bytes: Vec<u8>) -> Reading<RawDocumentBuf>
    ensures { envelope bytes.items ≡ Ok bytes.items → Reaches (λ d. d) result (Ok bytes.items) }
{
    match RawDocumentBuf::from_bytes(bytes) {
        Ok(document) => Ok(document),
        Err(fault) => Err(refused(alloc, Cause::Raw(fault))),
    }
}
