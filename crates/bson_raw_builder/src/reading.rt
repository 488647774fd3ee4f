// Values of a tree in memory at the leaves of documents and arrays in their bytes.
ghost use Rattle.std.specs.Prelude.{◌≡◌, true, Ok};
ghost use Rattle.std.specs.Option.{option_map};
ghost use Rattle.bson_base.specs.BsonView.{pairs_of, tree_of};
ghost use Rattle.bson_base.specs.Tree as trees;
ghost use Rattle.bson_base.specs.Tree.{Tree, Pairs, no_pairs};
ghost use Rattle.bson_rawdoc.specs.Node.{opens};
ghost use Rattle.bson_shape.specs.Form as form;
ghost use Rattle.bson_datum.specs.MarkedView.{marked};
ghost use Rattle.bson_values.specs.Refusal.{under};
ghost use Rattle.bson_laws.specs.Assembled.{assembled, assembled_tree, raw_bytes};
ghost use Rattle.bson_laws.specs.FirstKeys.{first_key};
ghost use Rattle.bson_laws.specs.Judged.{judged, scope_key};
ghost use Rattle.bson_laws.specs.ReadsFrom.{reads_from};
ghost use Rattle.bson_laws.specs.TreeRaw.{as_reading, built_value, held_scope, opened_pairs, read_built, tree_raw_value_of};
ghost use Rattle.bson_laws.specs.declared.origin.Origin.TheVariants as origins;
ghost use Rattle.bson_met.specs.ContainerView.{array_node, document_elements, document_node};
ghost use Rattle.bson_met.specs.Gives.{Reaches};
ghost use Rattle.bson_met.specs.OpenedView.{extended_view, scope_node};
ghost use Rattle.bson_met.specs.PieceView.{met_text};
ghost use Rattle.bson_met.specs.ValueView.{value_view};
ghost use Rattle.bson_raw_parts.specs.Putting.{Gives, body_built, code_built, is_body};
ghost use Rattle.bson_raw_parts.specs.BuiltView.{IsContainer, IsRawless, IsWhole};
ghost use Rattle.bson_raw_builder.specs.RawTreeView.{IsBuilt, IsCodeBuilt, IsRaw, as_value, container_expected, opened_expected, raw_at, scope_tree, scoped_expected};
ghost use Rattle.bson_raw_parts.specs.RawValueView.{raw_view};

use crate::bodies::body_of;
use crate::building::{raw_of_code, raw_of_document, raw_of_values};
use bson_base::{Binary, BinarySubtype, Bson, Document};
use bson_datum::Datum;
use bson_kinds::ElementType;
use bson_met::{
    Elements, Extended, Met, MetArray, MetDocument, MetText, Reading, Scope, Value, refused,
};
use bson_raw_parts::{
    FirstKey, RawValue, body_value, code_value, container_value, first_key, scoped_value, text_of,
};
use bson_shape::Leaf;
use bson_trees::read_extended;
use bson_values::{Cause, Stop, Wrapper, de};
use std::alloc::Global;

/// The key of a refusal that comes from a scope.
const SCOPE_KEY: &str = "$scope";

/// The value of a tree in memory at `rawdoc`, `rawarray` or `rawbson`, in bytes that are owned.
///
/// # Errors
///
/// Those of `raw_from_bson`, which are of the value itself; then `InvalidType` of the kind that was built. `TooDeep` with the key `$scope` where no level is left for
/// a scope. `NotBorrowed` where a document or an array is one of the input.
#[inline(never)]
pub fn read_raw_tree<'de>(alloc: Global, leaf: Leaf, value: &Met<'de>) -> Reading<Datum<'de>>
    requires raw { IsRaw leaf }
    ensures exact { Reaches marked result (reads_from origins.Tree (form.leaf leaf) value.now) }
{
    match leaf {
        Leaf::RawDocument => read_of_kind(alloc, ElementType::EmbeddedDocument, value),
        Leaf::RawArray => read_of_kind(alloc, ElementType::Array, value),
        _ => read_whole(alloc, value),
    }
}

// A document or an array that is built as one of this kind.
fn read_of_kind<'de>(alloc: Global, kind: ElementType, value: &Met<'de>) -> Reading<Datum<'de>>
    requires container { IsContainer kind }
    ensures exact { Reaches marked result (raw_at kind value.now) }
{
    let built = build_container(alloc, value)?;
    if built.element_type == kind {
        return container_value(alloc, built);
    }
    Err(refused(alloc, Cause::InvalidType(built.element_type)))
}

// A value of any kind, of which documents, arrays and scopes are built.
fn read_whole<'de>(alloc: Global, value: &Met<'de>) -> Reading<Datum<'de>>
    ensures exact { Reaches marked result (reads_from origins.Tree (form.leaf Leaf.RawBson) value.now) }
{
    match value.judge(alloc)? {
        Value::Document(document) => document_value(alloc, document),
        Value::Array(array) => array_value(alloc, array),
        Value::Extended(extended) => extended_value(alloc, extended, value),
        _ => read_extended(alloc, Leaf::RawBson, value),
    }
}

// A value of a kind that serde's data model lacks, of which a scope is built.
fn extended_value<'de>(
    alloc: Global,
    extended: Extended<'_>,
    value: &Met<'de>,
) -> Reading<Datum<'de>>
    requires judged { judged value.now ≡ Ok (opens (extended_view extended)) }
    ensures exact { Reaches marked result (tree_raw_value_of (opens (extended_view extended.entry))) }
{
    match extended {
        Extended::JavaScriptCodeWithScope(code, scope) => code_with_scope(alloc, code, scope),
        _ => read_extended(alloc, Leaf::RawBson, value),
    }
}

// ---- documents and arrays

// What the raw builder makes of a document or of an array.
fn build_container<'x>(alloc: Global, value: &Met<'_>) -> Reading<RawValue<'x>>
    ensures built { IsBuilt result (container_expected value.now) }
{
    match value.judge(alloc)? {
        Value::Document(document) => build_document(alloc, document),
        Value::Array(array) => build_array(alloc, array),
        other => Err(refused(alloc, Cause::InvalidType(other.kind()))),
    }
}

// What the raw builder makes of a document.
fn build_document<'x>(alloc: Global, document: MetDocument<'_>) -> Reading<RawValue<'x>>
    ensures built { IsBuilt result (read_built (document_node document.entry)) }
{
    if document.is_opened() {
        let opened = document_of_opened(alloc, document)?;
        return reading(alloc, raw_of_document(alloc, &opened));
    }
    match document.tree() {
        Some(tree) => reading(alloc, raw_of_document(alloc, tree)),
        None => Err(refused(alloc, Cause::NotBorrowed)),
    }
}

// What the raw builder makes of an array.
fn build_array<'x>(alloc: Global, array: MetArray<'_>) -> Reading<RawValue<'x>>
    ensures built { IsBuilt result (read_built (array_node array.entry)) }
{
    match array.tree() {
        Some(values) => reading(alloc, raw_of_values(alloc, values.as_slice())),
        None => Err(refused(alloc, Cause::NotBorrowed)),
    }
}

// A document as the value that the raw builder makes of it.
fn document_value<'x>(alloc: Global, document: MetDocument<'_>) -> Reading<Datum<'x>>
    ensures exact { Reaches marked result (as_value (read_built (document_node document.entry))) }
{
    if document.is_opened() {
        let opened = document_of_opened(alloc, document)?;
        return looked_value(alloc, &opened);
    }
    match document.tree() {
        Some(tree) => looked_value(alloc, tree),
        None => Err(refused(alloc, Cause::NotBorrowed)),
    }
}

// An array in the bytes that the raw builder makes of it.
fn array_value<'x>(alloc: Global, array: MetArray<'_>) -> Reading<Datum<'x>>
    ensures exact { Reaches marked result (as_value (read_built (array_node array.entry))) }
{
    let built = build_array(alloc, array)?;
    container_value(alloc, built)
}

// A document of a tree by its first key: in its bytes, or as the value that it becomes.
fn looked_value<'x>(alloc: Global, document: &Document) -> Reading<Datum<'x>>
    ensures exact { Reaches marked result (as_value (as_reading (assembled_tree (trees.document (pairs_of document.now))))) }
{
    let built = reading(alloc, raw_of_document(alloc, document))?;
    let mut pairs = document.iter();
    let Some((key, value)) = pairs.next() else {
        return container_value(alloc, built);
    };
    match first_key(key) {
        FirstKey::Body(wrapper) => became(alloc, wrapper, value),
        FirstKey::Code => became_code(alloc, value, built),
        FirstKey::Ordinary => container_value(alloc, built),
    }
}

// What a document became whose first key stands for a value by itself.
fn became<'x>(alloc: Global, wrapper: Wrapper, value: &Bson) -> Reading<Datum<'x>>
    requires body { is_body (first_key wrapper) ≡ true }
    ensures exact { (t : Tree) → body_built wrapper (tree_of value.now) ≡ Ok t → Reaches marked result (built_value t) }
{
    match body_of(alloc, wrapper, value)? {
        Some(body) => Ok(body_value(alloc, body)?),
        None => Err(refused(alloc, Cause::BadBody(wrapper))),
    }
}

// What a document became whose first key is `$code`.
fn became_code<'x>(alloc: Global, value: &Bson, built: RawValue<'_>) -> Reading<Datum<'x>>
    requires coded { IsCodeBuilt (tree_of value.now) built }
    ensures exact { (t : Tree) (rest : Pairs) → code_built (tree_of value.now) rest 199 ≡ Ok t → IsWhole t → raw_view built.entry ≡ raw_bytes t
        → Reaches marked result (built_value t) }
{
    let Some(code) = text_of(value) else {
        return Err(refused(alloc, Cause::BadBody(Wrapper::Code)));
    };
    if built.element_type == ElementType::JavaScriptCode {
        return Ok(code_value(alloc, code)?);
    }
    scoped_value(alloc, code, built.bytes)
}

// ---- codes with scopes

// A code with a scope, for which a level is left, as the raw builder makes it.
fn code_with_scope<'x>(alloc: Global, code: MetText<'_>, scope: Scope<'_>) -> Reading<Datum<'x>>
    ensures exact { Reaches marked result (scoped_expected (met_text code.entry) (scope_node scope.entry)) }
{
    let tree = scope_in_memory(alloc, scope)?;
    let owned = code.to_string(alloc)?;
    let text = owned.as_str();
    let built = reading(alloc, raw_of_code(alloc, text, tree))?;
    scoped_value(alloc, text, built.bytes)
}

// The document of a tree in memory that a scope is.
fn scope_in_memory<'de>(alloc: Global, scope: Scope<'de>) -> Reading<&'de Document>
    ensures exact { Reaches (λ d. trees.document (pairs_of d.now)) result (scope_tree (scope_node scope.entry)) }
{
    let judged = judged_scope(alloc, scope)?;
    match in_memory(judged) {
        Some(tree) => Ok(tree),
        None => Err(refused(alloc, Cause::NotBorrowed)),
    }
}

// A scope, judged.
fn judged_scope<'de>(alloc: Global, scope: Scope<'de>) -> Reading<Value<'de>>
    ensures exact { Reaches value_view result (under scope_key (judged (scope_node scope.entry))) }
{
    match Met::of_scope(scope).judge(alloc) {
        Ok(value) => Ok(value),
        Err(stop) => Err(stop.under_key(SCOPE_KEY)),
    }
}

// The document of a tree in memory that a judged value is.
fn in_memory<'de>(value: Value<'de>) -> Option<&'de Document>
    ensures held { option_map (λ d. trees.document (pairs_of d.now)) result ≡ held_scope (value_view value.entry) }
{
    match value {
        Value::Document(document) => document.tree(),
        _ => None,
    }
}

// ---- answers of the builder

// What the builder gives, as a reader gives it: its refusals are those of the value.
fn reading<'x>(alloc: Global, built: de::Result<RawValue<'x>>) -> Reading<RawValue<'x>>
    ensures read { (t : Tree) → IsRawless t → Gives raw_view built.entry (assembled t) → IsBuilt result (as_reading (assembled_tree t)) }
{
    match built {
        Ok(built) => Ok(built),
        Err(de::Error::DeserializationError { cause }) => Err(refused(alloc, cause)),
        Err(_) => Err(Stop::NoMemory),
    }
}

// ---- documents that opening makes

// Such a document as it stands. Its values are texts, byte strings, numbers, the truth, and documents.
#[cycle(opened)]
fn document_of_opened(alloc: Global, document: MetDocument<'_>) -> Reading<Document>
    ensures exact { Reaches pairs_of result (opened_pairs (document_elements document.entry) no_pairs) }
{
    let mut pairs = Document::new(alloc);
    let mut elements = Elements::of_document(document);
    let mut step = elements.start();
    'step: while elements.advance(alloc, &mut step)? {
        let key = String::from_str(alloc, step.key.text)?;
        let value = value_of_opened(alloc, &step.value)?;
        drop(pairs.insert(key, value)?);
    }
    Ok(pairs)
}

// A value in such a document.
#[cycle(opened)]
#[tactic(auto, using(bson_base::proofs::Rows::row_items, bson_base::proofs::Rows::row_pairs))]
fn value_of_opened(alloc: Global, value: &Met<'_>) -> Reading<Bson>
    ensures exact { Reaches tree_of result (opened_expected value.now) }
{
    match value.judge(alloc)? {
        Value::String(text) => Ok(Bson::String(text.to_string(alloc)?)),
        Value::Bytes(bytes) => Ok(Bson::Binary(Binary {
            subtype: BinarySubtype(0),
            bytes: bytes.bytes.to_vec(alloc)?,
        })),
        Value::Boolean(truth) => Ok(Bson::Boolean(truth)),
        Value::Int32(number) => Ok(Bson::Int32(number)),
        Value::Int64(number) => Ok(Bson::Int64(number)),
        Value::Document(document) => Ok(Bson::Document(document_of_opened(alloc, document)?)),
        _ => Ok(Bson::Null),
    }
}
