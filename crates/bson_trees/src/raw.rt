// Values at the leaves of documents and arrays in their bytes.
ghost use Rattle.std.specs.Prelude.{◌≡◌, true, Ok, IfOk};
ghost use Rattle.bson_rawdoc.specs.DocumentView.{array_bytes, document_bytes};
ghost use Rattle.bson_rawdoc.specs.Node as node;
ghost use Rattle.bson_kinds.specs.Piece.{borrowed};
ghost use Rattle.bson_shape.specs.Form as form;
ghost use Rattle.bson_datum.specs.MarkedView.{marked};
ghost use Rattle.bson_values.specs.Value as values;
ghost use Rattle.bson_laws.specs.ReadsRaw as laws;
ghost use Rattle.bson_laws.specs.Reads.{reads};
ghost use Rattle.bson_met.specs.Gives.{Reaches};
ghost use Rattle.bson_met.specs.OpenedView.{extended_view, scope_node};
ghost use Rattle.bson_met.specs.PieceView.{met_bytes, met_text};
ghost use Rattle.bson_trees.specs.Raw.{raw_array_at, raw_document_at, raw_scope_at};
ghost use Rattle.bson_trees.specs.Trees.{is_scalar};

use bson_base::{BinarySubtype, ObjectId};
use bson_datum::{Datum, RawArr, RawDoc};
use bson_met::{Extended, Met, MetBytes, MetText, Reading, Scope, Value, refused};
use bson_rawdoc::{RawArray, RawDocument};
use bson_shape::Leaf;
use bson_values::Cause;
use bson_wrapped::data;
use std::alloc::{AllocError, Global};

/// The key of a refusal that comes from a scope.
const SCOPE_KEY: &str = "$scope";

/// The document that a value is, in its bytes.
pub(crate) fn raw_document<'de>(alloc: Global, value: &Met<'de>) -> Reading<Datum<'de>>
    ensures exact { Reaches marked result (reads (form.leaf Leaf.RawDocument) value.now) }
{
    let document = borrow_document(alloc, value)?;
    Ok(Datum::RawDocument(RawDoc::Borrowed(document)))
}

/// The array that a value is, in its bytes.
pub(crate) fn raw_array<'de>(alloc: Global, value: &Met<'de>) -> Reading<Datum<'de>>
    ensures exact { Reaches marked result (reads (form.leaf Leaf.RawArray) value.now) }
{
    let array = borrow_array(alloc, value)?;
    Ok(Datum::RawArray(RawArr::Borrowed(array)))
}

/// A value, of which documents, arrays and scopes stay in their bytes. Texts and byte strings are borrowed where they are in the input.
pub(crate) fn raw_value<'de>(alloc: Global, value: &Met<'de>) -> Reading<Datum<'de>>
    ensures exact { Reaches marked result (reads (form.leaf Leaf.RawBson) value.now) }
{
    match value.judge(alloc)? {
        Value::Document(document) => {
            Ok(Datum::RawDocument(RawDoc::Borrowed(document.borrow(alloc)?)))
        }
        Value::Array(array) => Ok(Datum::RawArray(RawArr::Borrowed(array.borrow(alloc)?))),
        Value::Boolean(boolean) => Ok(Datum::Bool(boolean)),
        Value::Int32(number) => Ok(Datum::I32(number)),
        Value::Int64(number) => Ok(Datum::I64(number)),
        Value::Double(double) => Ok(Datum::Double(double)),
        Value::String(text) => Ok(Datum::Str(text.to_text(alloc)?)),
        Value::Bytes(bytes) => Ok(Datum::Bytes(bytes.borrow_or_copy(alloc)?)),
        Value::Null => Ok(Datum::Unit),
        Value::Extended(value) => raw_extended(alloc, value),
    }
}

/// The document that a value is, borrowed.
fn borrow_document<'de>(alloc: Global, value: &Met<'de>) -> Reading<RawDocument<'de>>
    ensures exact { Reaches (λ d. borrowed (document_bytes d)) result (raw_document_at value.now) }
{
    match value.judge(alloc)? {
        Value::Document(document) => document.borrow(alloc),
        other => Err(refused(alloc, Cause::InvalidType(other.kind()))),
    }
}

/// The array that a value is, borrowed.
fn borrow_array<'de>(alloc: Global, value: &Met<'de>) -> Reading<RawArray<'de>>
    ensures exact { Reaches (λ a. borrowed (array_bytes a)) result (raw_array_at value.now) }
{
    match value.judge(alloc)? {
        Value::Array(array) => array.borrow(alloc),
        other => Err(refused(alloc, Cause::InvalidType(other.kind()))),
    }
}

/// The document that a scope is, borrowed.
fn borrow_scope<'de>(alloc: Global, scope: Scope<'de>) -> Reading<RawDocument<'de>>
    ensures exact { Reaches (λ d. borrowed (document_bytes d)) result (raw_scope_at (scope_node scope.entry)) }
{
    match borrow_document(alloc, &Met::of_scope(scope)) {
        Ok(document) => Ok(document),
        Err(stop) => Err(stop.under_key(SCOPE_KEY)),
    }
}

/// A value of a kind that serde's data model lacks.
fn raw_extended<'de>(alloc: Global, value: Extended<'de>) -> Reading<Datum<'de>>
    ensures exact { Reaches marked result (laws.raw_extended (extended_view value.entry)) }
{
    let Extended::JavaScriptCodeWithScope(code, scope) = value else {
        return Ok(raw_scalar(alloc, value)?);
    };
    let scope = borrow_scope(alloc, scope)?;
    Ok(scoped_code(alloc, code, scope)?)
}

/// Code with a scope, which stays in its bytes.
fn scoped_code<'de>(
    alloc: Global,
    code: MetText<'de>,
    scope: RawDocument<'de>,
) -> Result<Datum<'de>, AllocError>
    ensures { IfOk result (λ d. marked d ≡ laws.scoped_code (met_text code.entry) (borrowed (document_bytes scope.entry))) }
{
    let code = ("$code", Datum::Str(code.to_text(alloc)?));
    let scope = ("$scope", Datum::RawDocument(RawDoc::Borrowed(scope)));
    data::struct_of_two(alloc, "$codeWithScope", code, scope)
}

/// An extended value that has no scope. The options of a regular expression stay as they are.
fn raw_scalar<'de>(alloc: Global, value: Extended<'de>) -> Result<Datum<'de>, AllocError>
    requires scalar { is_scalar (extended_view value) ≡ true }
    ensures exact { IfOk result (λ d. laws.raw_extended (extended_view value.entry) ≡ Ok (marked d)) }
{
    match value {
        Extended::Binary(subtype, bytes) => binary(alloc, subtype, bytes),
        Extended::RegularExpression(pattern, options) => {
            regular_expression(alloc, pattern, options)
        }
        Extended::DbPointer(namespace, id) => db_pointer(alloc, namespace, id),
        Extended::JavaScriptCode(code) => {
            data::wrap(alloc, "$code", Datum::Str(code.to_text(alloc)?))
        }
        Extended::Symbol(symbol) => {
            data::wrap(alloc, "$symbol", Datum::Str(symbol.to_text(alloc)?))
        }
        Extended::JavaScriptCodeWithScope(..) => unreachable!(),
        Extended::Undefined => data::undefined(alloc),
        Extended::ObjectId(id) => data::object_id(alloc, id.bytes),
        Extended::DateTime(time) => data::date_time(alloc, time),
        Extended::Timestamp(time) => data::timestamp(alloc, time),
        Extended::Decimal128(bits) => decimal(alloc, bits),
        Extended::MaxKey => data::max_key(alloc),
        Extended::MinKey => data::min_key(alloc),
    }
}

/// A binary of a subtype other than 0.
fn binary<'de>(
    alloc: Global,
    subtype: BinarySubtype,
    bytes: MetBytes<'de>,
) -> Result<Datum<'de>, AllocError>
    ensures { IfOk result (λ d. laws.raw_extended (node.binary subtype.0 (met_bytes bytes.entry)) ≡ Ok (marked d)) }
{
    let bytes = ("bytes", Datum::Bytes(bytes.borrow_or_copy(alloc)?));
    let body = data::struct_of_two(alloc, "", bytes, ("subType", Datum::U8(subtype.0)))?;
    data::wrap(alloc, "$binary", body)
}

/// A regular expression.
fn regular_expression<'de>(
    alloc: Global,
    pattern: MetText<'de>,
    options: MetText<'de>,
) -> Result<Datum<'de>, AllocError>
    ensures { IfOk result (λ d. laws.raw_extended (node.regular_expression (met_text pattern.entry) (met_text options.entry)) ≡ Ok (marked d)) }
{
    let pattern = pattern.to_text(alloc)?;
    let options = ("options", Datum::Str(options.to_text(alloc)?));
    let body = data::struct_of_two(alloc, "", ("pattern", Datum::Str(pattern)), options)?;
    data::wrap(alloc, "$regularExpression", body)
}

/// A DbPointer.
fn db_pointer<'de>(
    alloc: Global,
    namespace: MetText<'de>,
    id: ObjectId,
) -> Result<Datum<'de>, AllocError>
    ensures { IfOk result (λ d. laws.raw_extended (node.db_pointer (met_text namespace.entry) id.0) ≡ Ok (marked d)) }
{
    let namespace = namespace.to_text(alloc)?;
    let digits = Datum::Str(MetText::Id(id).to_text(alloc)?);
    let id = data::struct_of_one(alloc, "", "$oid", digits)?;
    let body = data::struct_of_two(alloc, "", ("$ref", Datum::Str(namespace)), ("$id", id))?;
    data::wrap(alloc, "$dbPointer", body)
}

/// A Decimal128.
fn decimal<'de>(alloc: Global, bits: MetBytes<'de>) -> Result<Datum<'de>, AllocError>
    ensures { IfOk result (λ d. laws.raw_extended (node.decimal128 (met_bytes bits.entry)) ≡ Ok (marked d)) }
{
    let bits = Datum::Bytes(bits.borrow_or_copy(alloc)?);
    data::struct_of_one(alloc, "$numberDecimal", "$numberDecimalBytes", bits)
}
