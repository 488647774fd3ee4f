// Values, judged.
ghost use Rattle.std.specs.Prelude.{◌≡◌, true, false, Ok, string_bytes};
ghost use Rattle.std.specs.Str.{is_utf8};
ghost use Rattle.bson_base.specs.BsonView.{tree_of, pairs_of};
ghost use Rattle.bson_base.specs.Tree as trees;
ghost use Rattle.bson_kinds.specs.declared.element_type.ElementType.TheVariants as kinds;
ghost use Rattle.bson_rawdoc.specs.DocumentView.{document_bytes};
ghost use Rattle.bson_rawdoc.specs.Node.{of_tree, from_memory, node_in, inner_node, value_node, one_level, pair_nodes, tree_node};
ghost use Rattle.bson_rawdoc.specs.JsonKinds.{is_of_json};
ghost use Rattle.bson_kinds.specs.Piece.{borrowed, made};
ghost use Rattle.bson_rawdoc.specs.RawValue.{kind_of, value_in};
ghost use Rattle.bson_rawdoc.specs.ValueView.{raw_value};
ghost use Rattle.bson_laws.specs.Judged.{judged, with_level};
ghost use Rattle.bson_met.specs.Gives.{Reaches};
ghost use Rattle.bson_met.specs.MetView.{what_node};
ghost use Rattle.bson_met.specs.OpenedView.{made_node, names_node, scope_node};
ghost use Rattle.bson_met.specs.PieceView.{met_bytes, met_text};
ghost use Rattle.bson_met.specs.ValueView.{value_view};

use crate::bytes::MetBytes;
use crate::containers::{MetArray, MetDocument};
use crate::met::What;
use crate::opened::{Extended, Made, Names, Scope};
use crate::reading::{Reading, refused};
use crate::text::{MetStr, MetText, known};
use crate::value::Value;
use bson_base::{Bson, Document};
use bson_rawdoc::{RawBsonRef, RawDocument, RawElement};
use bson_values::Cause;
use std::alloc::Global;

/// The value of an element.
#[inline(always)]
pub(crate) fn judge_element<'de>(
    alloc: Global,
    levels: u32,
    element: &RawElement<'de>,
) -> Reading<Value<'de>>
    ensures { Reaches value_view result (judged (node_in levels element.now.kind element.now.value)) }
{
    match element.value() {
        Ok(value) => judge_raw(alloc, levels, element, value),
        Err(fault) => Err(refused(alloc, Cause::Raw(fault))),
    }
}

/// A value, wherever it comes from.
#[inline(never)]
pub(crate) fn judge_beyond<'de>(alloc: Global, levels: u32, what: &What<'de>) -> Reading<Value<'de>>
    ensures { Reaches value_view result (judged (what_node levels what.now)) }
{
    match what {
        What::Element(element) => judge_element(alloc, levels, element),
        What::Document(document) => judge_document(alloc, levels, *document),
        What::Tree(value) => judge_tree(alloc, levels, value),
        What::Pairs(document) => judge_pairs(alloc, levels, document),
        What::Made(made) => Ok(judge_made(*made)),
    }
}

/// A document of the input.
fn judge_document<'de>(
    alloc: Global,
    levels: u32,
    document: RawDocument<'de>,
) -> Reading<Value<'de>>
    ensures { Reaches value_view result
        (judged (inner_node levels kinds.EmbeddedDocument (document_bytes document.entry))) }
{
    let document = MetDocument::in_bytes(alloc, levels, document)?;
    Ok(Value::Document(document))
}

/// A document of a tree.
fn judge_pairs<'de>(alloc: Global, levels: u32, document: &'de Document) -> Reading<Value<'de>>
    ensures { Reaches value_view result
        (judged (one_level kinds.EmbeddedDocument (of_tree (trees.document (pairs_of document.now))) (pair_nodes from_memory (pairs_of document.now)) levels)) }
{
    let document = MetDocument::in_pairs(alloc, levels, document)?;
    Ok(Value::Document(document))
}

/// A value in a document that another value is opened to.
#[inline(never)]
fn judge_made<'de>(made: Made<'de>) -> Value<'de>
    ensures { judged (made_node made.entry) ≡ Ok (value_view result) }
{
    match made {
        Made::Text(text) => {
            text.known();
            Value::String(text)
        }
        Made::Bytes(bytes) => Value::Bytes(MetBytes {
            bytes: bytes.bytes,
            in_input: false,
            under_mark: false,
        }),
        Made::True => Value::Boolean(true),
        Made::One => Value::Int32(1),
        Made::Long(number) => Value::Int64(i64::from(number)),
        Made::Document(opened) => Value::Document(MetDocument::of_opened(opened)),
    }
}

/// The value of an element, where it has no fault.
#[inline(always)]
fn judge_raw<'de>(
    alloc: Global,
    levels: u32,
    element: &RawElement<'de>,
    value: RawBsonRef<'de>,
) -> Reading<Value<'de>>
    requires { Ok (raw_value value) ≡ value_in element.now.kind element.now.value }
    ensures { Reaches value_view result (with_level (value_node (inner_node levels) (raw_value value.entry))) }
{
    Ok(match value {
        RawBsonRef::Int32(number) => Value::Int32(number),
        RawBsonRef::Int64(number) => Value::Int64(number),
        RawBsonRef::String(text) => Value::String(input_text(text)),
        RawBsonRef::Document(document) => {
            Value::Document(MetDocument::in_bytes(alloc, levels, document)?)
        }
        RawBsonRef::Array(array) => Value::Array(MetArray::in_bytes(alloc, levels, array)?),
        RawBsonRef::Boolean(boolean) => Value::Boolean(boolean),
        RawBsonRef::Double(double) => Value::Double(double),
        RawBsonRef::Null => Value::Null,
        other => extended(levels, element, other),
    })
}

/// The value of an element, where it has no fault and is of a kind that JSON lacks.
#[inline(never)]
fn extended<'de>(levels: u32, element: &RawElement<'de>, value: RawBsonRef<'de>) -> Value<'de>
    requires value { Ok (raw_value value) ≡ value_in element.now.kind element.now.value }
    requires other { is_of_json (kind_of (raw_value value)) ≡ false }
    ensures { value_view result ≡ value_node (inner_node levels) (raw_value value.entry) }
{
    let value = match value {
        RawBsonRef::Binary { subtype, bytes } if subtype.0 == 0 => {
            return Value::Bytes(input_bytes(bytes));
        }
        RawBsonRef::Binary { subtype, bytes } => Extended::Binary(subtype, input_bytes(bytes)),
        RawBsonRef::Undefined => Extended::Undefined,
        RawBsonRef::ObjectId(_) => Extended::ObjectId(input_bytes(element.slice())),
        RawBsonRef::DateTime(time) => Extended::DateTime(time),
        RawBsonRef::RegularExpression { pattern, options } => {
            Extended::RegularExpression(input_text(pattern), input_text(options))
        }
        RawBsonRef::DbPointer { namespace, id } => {
            Extended::DbPointer(input_text(namespace), id)
        }
        RawBsonRef::JavaScriptCode(code) => Extended::JavaScriptCode(input_text(code)),
        RawBsonRef::Symbol(text) => Extended::Symbol(input_text(text)),
        RawBsonRef::JavaScriptCodeWithScope { code, scope } => {
            let scope = scope_of(levels, Names::Bytes(scope));
            Extended::JavaScriptCodeWithScope(input_text(code), scope)
        }
        RawBsonRef::Timestamp(time) => Extended::Timestamp(time),
        RawBsonRef::Decimal128(_) => Extended::Decimal128(input_bytes(element.slice())),
        RawBsonRef::MaxKey => Extended::MaxKey,
        RawBsonRef::MinKey => Extended::MinKey,
        RawBsonRef::Double(_)
        | RawBsonRef::String(_)
        | RawBsonRef::Document(_)
        | RawBsonRef::Array(_)
        | RawBsonRef::Boolean(_)
        | RawBsonRef::Null
        | RawBsonRef::Int32(_)
        | RawBsonRef::Int64(_) => unreachable!(),
    };
    Value::Extended(value)
}

/// A value of a tree.
#[tactic(auto, using(bson_base::proofs::Rows::row_items, bson_base::proofs::Rows::row_pairs))]
#[inline(never)]
fn judge_tree<'de>(alloc: Global, levels: u32, value: &'de Bson) -> Reading<Value<'de>>
    ensures { Reaches value_view result (judged (tree_node from_memory (tree_of value.now) levels)) }
{
    Ok(match value {
        Bson::Int32(number) => Value::Int32(*number),
        Bson::Int64(number) => Value::Int64(*number),
        Bson::String(text) => Value::String(own_text(as_text(text))),
        Bson::Document(document) => {
            Value::Document(MetDocument::in_pairs(alloc, levels, document)?)
        }
        Bson::Array(values) => Value::Array(MetArray::in_values(alloc, levels, values)?),
        Bson::Boolean(boolean) => Value::Boolean(*boolean),
        Bson::Double(double) => Value::Double(*double),
        Bson::Null => Value::Null,
        other => extended_in_tree(levels, other),
    })
}

/// A value of a tree that is of a kind that JSON lacks.
#[tactic(auto, using(bson_base::proofs::Rows::row_items, bson_base::proofs::Rows::row_pairs))]
#[inline(always)]
fn extended_in_tree<'de>(levels: u32, value: &'de Bson) -> Value<'de>
    requires other { is_of_json (trees.kind (tree_of value.now)) ≡ false }
    ensures { judged (tree_node from_memory (tree_of value.now) levels) ≡ Ok (value_view result) }
{
    let value = match value {
        Bson::Binary(binary) if binary.subtype.0 == 0 => {
            return Value::Bytes(own_bytes(binary.bytes.as_slice()));
        }
        Bson::Binary(binary) => Extended::Binary(
            binary.subtype,
            own_bytes(binary.bytes.as_slice()),
        ),
        Bson::Undefined => Extended::Undefined,
        Bson::ObjectId(id) => Extended::ObjectId(own_bytes(&id.0)),
        Bson::DateTime(time) => Extended::DateTime(*time),
        Bson::RegularExpression(regex) => {
            Extended::RegularExpression(own_known(regex.pattern()), own_known(regex.options()))
        }
        Bson::DbPointer(pointer) => {
            Extended::DbPointer(own_text(as_text(&pointer.namespace)), pointer.id)
        }
        Bson::JavaScriptCode(code) => Extended::JavaScriptCode(own_text(as_text(code))),
        Bson::Symbol(text) => Extended::Symbol(own_text(as_text(text))),
        Bson::JavaScriptCodeWithScope(scoped) => {
            let scope = scope_of(levels, Names::Pairs(&scoped.scope));
            Extended::JavaScriptCodeWithScope(own_text(as_text(&scoped.code)), scope)
        }
        Bson::Timestamp(time) => Extended::Timestamp(*time),
        Bson::Decimal128(number) => Extended::Decimal128(own_bytes(&number.0)),
        Bson::MaxKey => Extended::MaxKey,
        Bson::MinKey => Extended::MinKey,
        Bson::Double(_)
        | Bson::String(_)
        | Bson::Document(_)
        | Bson::Array(_)
        | Bson::Boolean(_)
        | Bson::Null
        | Bson::Int32(_)
        | Bson::Int64(_) => unreachable!(),
    };
    Value::Extended(value)
}

/// A text of the input.
#[inline(always)]
fn input_text<'de>(text: &'de str) -> MetText<'de>
    ensures piece { met_text result ≡ borrowed text.now }
{
    MetText::Whole(MetStr::input(text))
}

/// A text that is not in the input.
#[inline(always)]
fn own_text<'de>(text: &'de str) -> MetText<'de>
    ensures piece { met_text result ≡ made text.now }
{
    MetText::Whole(MetStr::elsewhere(text))
}

/// A text that is not in the input, which is UTF-8.
#[inline(always)]
fn own_known<'de>(text: &'de str) -> MetText<'de>
    ensures piece { met_text result ≡ made text.now }
    ensures utf8 { is_utf8 text.now ≡ true }
{
    known(text);
    own_text(text)
}

/// The scope of a code, with its texts as they stand.
#[inline(always)]
fn scope_of<'de>(levels: u32, names: Names<'de>) -> Scope<'de>
    ensures scope { scope_node result ≡ names_node levels names.entry }
{
    Scope {
        levels,
        mends: false,
        names,
    }
}

/// Bytes of the input.
fn input_bytes<'de>(bytes: &'de [u8]) -> MetBytes<'de>
    ensures piece { met_bytes result ≡ borrowed bytes.now }
    ensures bytes { result.bytes.now ≡ bytes.now }
    ensures under_mark { result.under_mark ≡ false }
{
    MetBytes {
        bytes,
        in_input: true,
        under_mark: false,
    }
}

/// Bytes that are not in the input.
fn own_bytes<'de>(bytes: &'de [u8]) -> MetBytes<'de>
    ensures piece { met_bytes result ≡ made bytes.now }
    ensures bytes { result.bytes.now ≡ bytes.now }
    ensures under_mark { result.under_mark ≡ false }
{
    MetBytes {
        bytes,
        in_input: false,
        under_mark: false,
    }
}

/// A text of a tree.
pub(crate) fn as_text(text: &String) -> &str
    ensures text { result.now ≡ string_bytes text.now }
    ensures utf8 { is_utf8 (string_bytes text.now) ≡ true }
{
    text.as_str()
}
