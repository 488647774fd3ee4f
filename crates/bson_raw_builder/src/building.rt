// Values in memory as raw values, appended in one walk over them. Places for kinds and lengths are left, and filled when these are known.
ghost use Rattle.std.specs.Prelude.{◌≡◌, ◌∷◌, ◌++◌, [], OnOk};
ghost use Rattle.std.specs.Fmt.{decimal};
ghost use Rattle.bson_base.specs.BsonView.{tree_of, trees_of, pairs_of};
ghost use Rattle.bson_base.specs.Tree as trees;
ghost use Rattle.bson_base.specs.Tree.{element, kind, enc};
ghost use Rattle.bson_laws.specs.Assembled.{assembled, built, built_pairs, built_trees, looked_at, one_level, under_key, with_scope};
ghost use Rattle.bson_raw_parts.specs.Putting.{Gives, Puts, PutsLooked, PutsPart, code_built, whole_of};
ghost use Rattle.bson_raw_parts.specs.RawValueView.{raw_view};

use crate::bodies::put_body;
use bson_base::{Bson, Document, Iter, MAX_NESTING_LEVEL, has_zero};
use bson_io::MOST;
use bson_kinds::ElementType;
use bson_raw_parts::{
    FirstKey, RawValue, append, append_closed, append_text, bad_body, document_of, first_key,
    put_binary, put_boolean, put_code, put_date_time, put_db_pointer, put_decimal128, put_double,
    put_int32, put_int64, put_object_id, put_regular_expression, put_string, put_symbol,
    put_timestamp, refused, set_kind, set_length, text_of,
};
use bson_values::de::Result;
use bson_values::{ByteStr, Cause, Wrapper};
use std::alloc::{AllocError, Global};

/// The key of the scope of a code, behind the code itself.
const SCOPE_KEY: &str = "$scope";

/// A value as its kind and its bytes, after each document in it has been looked at by its first key.
///
/// A document whose first key is one of these becomes another value; its further pairs are not looked at.
///
/// - `$oid`: a text of 24 hexadecimal digits or a binary of subtype 0 with 12 bytes becomes an ObjectId. `$symbol`: a text.
/// - `$numberDecimalBytes`: a binary of subtype 0 with 16 bytes becomes a Decimal128. `$date`: an Int32 or an Int64 of milliseconds.
/// - `$undefined`: a boolean. `$minKey`, `$maxKey`: an Int32, or an Int64 in the range of one.
/// - `$regularExpression`: a document with the texts `pattern` and `options`, which are not put in order.
/// - `$binary`: a document with `bytes`, a binary of subtype 0, and `subType`, an Int32 or an Int64 from 0 to 255.
/// - `$timestamp`: a document with `t` and `i`, each an Int32 or an Int64 from 0 to 4294967295.
/// - `$dbPointer`: a document with the text `$ref` and `$id`: an ObjectId, one of the forms of `$oid`, or a document that is read as an ObjectId at the shape `oid`.
/// - `$code`: a text, which becomes a code; or, where the key `$scope` comes next, a code with the document there as its scope.
///
/// The pairs of an inner document may have any order, and others may be among them. Scopes are looked at too.
///
/// Source: the raw values of MongoDB's crate `bson`, version 2, and bsonspec.org, version 1.1.
///
/// # Errors
///
/// The first of these in document order, without a path, as `DeserializationError`; or `NoMemory`.
///
/// - `BadBody`: the value of a first key has not the form; of `$code` also where the value of `$scope` is no document, and where a scope becomes another value.
/// - `UnknownField`: a key other than `$scope` comes next after a first key `$code`.
/// - `ZeroByte`: a zero character is in a key of a document that stays one, or in a part of a regular expression.
/// - `BinaryTooLong`: so many bytes would be behind the subtype of a binary, and at most 16777216 may; in subtype 2 they begin with a second length of four.
/// - `TooDeep`: a document, an array or a scope is at level 201. The value itself is at level 1, and a document is looked at after its level.
/// - `TooLong`: there is none of these, and the value has more than 2147483647 bytes.
pub fn raw_from_bson<'x>(alloc: Global, value: Bson) -> Result<RawValue<'x>>
    ensures assembled { Gives raw_view result (assembled (tree_of value)) }
{
    raw_of_bson(alloc, &value)
}

/// The same of a value that is kept.
///
/// # Errors
///
/// Those of [`raw_from_bson`].
pub fn raw_of_bson<'x>(alloc: Global, value: &Bson) -> Result<RawValue<'x>>
    ensures assembled { Gives raw_view result (assembled (tree_of value.now)) }
{
    let mut out = Vec::new(alloc);
    let element_type = put_value(&mut out, value, MAX_NESTING_LEVEL)?;
    finished(element_type, out)
}

// The same of a document.
pub(crate) fn raw_of_document<'x>(alloc: Global, document: &Document) -> Result<RawValue<'x>>
    ensures assembled { Gives raw_view result (assembled (trees.document (pairs_of document.now))) }
{
    let mut out = Vec::new(alloc);
    let element_type = put_inner(&mut out, document, MAX_NESTING_LEVEL)?;
    finished(element_type, out)
}

// The same of an array.
pub(crate) fn raw_of_values<'x>(alloc: Global, values: &[Bson]) -> Result<RawValue<'x>>
    ensures assembled { Gives raw_view result (assembled (trees.array (trees_of values.now))) }
{
    let mut out = Vec::new(alloc);
    let element_type = put_array(&mut out, values, MAX_NESTING_LEVEL)?;
    finished(element_type, out)
}

// The same of a code with a scope.
pub(crate) fn raw_of_code<'x>(alloc: Global, code: &str, scope: &Document) -> Result<RawValue<'x>>
    ensures assembled { Gives raw_view result
        (assembled (trees.javascript_code_with_scope code.now (pairs_of scope.now))) }
{
    let mut out = Vec::new(alloc);
    let element_type = put_scoped(&mut out, code, scope, MAX_NESTING_LEVEL)?;
    finished(element_type, out)
}

// What was appended, where it has no more bytes than a document may.
#[tactic(auto, using(std::proofs::lemmas::Bool::Decides::nat_tests))]
fn finished<'x>(element_type: ElementType, bytes: Vec<u8>) -> Result<RawValue<'x>>
    ensures { Gives raw_view result (whole_of element_type bytes.items) }
{
    if bytes.len() > MOST {
        return Err(refused(Cause::TooLong));
    }
    Ok(RawValue {
        element_type,
        bytes: ByteStr::Owned(bytes),
    })
}

// Appends a value, with so many levels left for it, and answers its kind.
#[cycle(build)]
#[tactic(auto, using(bson_base::proofs::Rows::row_items, bson_base::proofs::Rows::row_pairs))]
fn put_value(out: &mut Vec<u8>, value: &Bson, levels: u32) -> Result<ElementType>
    ensures { Puts result out.old.items out.new.items (built (tree_of value.now) levels) }
{
    match value {
        Bson::Double(number) => put_double(out, *number),
        Bson::String(text) => put_string(out, text),
        Bson::Array(values) => put_array(out, values, levels),
        Bson::Document(document) => put_inner(out, document, levels),
        Bson::Boolean(truth) => put_boolean(out, *truth),
        Bson::RegularExpression(regex) => {
            put_regular_expression(out, regex.pattern(), regex.options())
        }
        Bson::JavaScriptCode(code) => put_code(out, code),
        Bson::JavaScriptCodeWithScope(scoped) => {
            put_scoped(out, &scoped.code, &scoped.scope, levels)
        }
        Bson::Int32(number) => put_int32(out, *number),
        Bson::Int64(number) => put_int64(out, *number),
        Bson::Timestamp(timestamp) => put_timestamp(out, *timestamp),
        Bson::Binary(binary) => put_binary(out, binary.subtype.0, &binary.bytes),
        Bson::ObjectId(id) => put_object_id(out, *id),
        Bson::DateTime(time) => put_date_time(out, *time),
        Bson::Symbol(text) => put_symbol(out, text),
        Bson::Decimal128(number) => put_decimal128(out, *number),
        Bson::DbPointer(pointer) => put_db_pointer(out, &pointer.namespace, pointer.id),
        Bson::Null => Ok(ElementType::Null),
        Bson::Undefined => Ok(ElementType::Undefined),
        Bson::MaxKey => Ok(ElementType::MaxKey),
        Bson::MinKey => Ok(ElementType::MinKey),
    }
}

// Appends the values of an array, whose keys are the decimal indexes from 0.
#[cycle(build)]
fn put_array(out: &mut Vec<u8>, values: &[Bson], levels: u32) -> Result<ElementType>
    ensures { Puts result out.old.items out.new.items (built (trees.array (trees_of values.now)) levels) }
{
    if levels == 0 {
        return Err(refused(Cause::TooDeep));
    }
    put_values(out, values, levels - 1)?;
    Ok(ElementType::Array)
}

// The same, with so many levels left for the values.
#[cycle(build)]
fn put_values(out: &mut Vec<u8>, values: &[Bson], levels: u32) -> Result<()>
    ensures { PutsPart (λ ts. enc (trees.array ts)) result out.old.items out.new.items (built_trees (trees_of values.now) levels) }
{
    let start = out.len();
    append(out, &[0; 4])?;
    for index in 0..values.len() {
        put_item(out, index, &values[index], levels)?;
    }
    append(out, &[0])?;
    set_length(out, start);
    Ok(())
}

// Appends an element of an array.
#[cycle(build)]
fn put_item(out: &mut Vec<u8>, index: usize, value: &Bson, levels: u32) -> Result<()>
    ensures { PutsPart (λ t. element (kind t) (decimal index) (enc t)) result out.old.items out.new.items (built (tree_of value.now) levels) }
{
    let place = out.len();
    let mut digits = itoa::Buffer::new();
    append_front(out, digits.format(index))?;
    let kind = put_value(out, value, levels)?;
    set_kind(out, place, kind);
    Ok(())
}

// Appends a value that is given as a document, or what that becomes, and answers its kind.
#[cycle(build)]
fn put_inner(out: &mut Vec<u8>, document: &Document, levels: u32) -> Result<ElementType>
    ensures { Puts result out.old.items out.new.items (built (trees.document (pairs_of document.now)) levels) }
{
    match put_document(out, document, levels)? {
        Some(kind) => Ok(kind),
        None => Ok(ElementType::EmbeddedDocument),
    }
}

// Appends a document, or what it becomes by its first key; then it answers the kind of that.
#[cycle(build)]
fn put_document(out: &mut Vec<u8>, document: &Document, levels: u32) -> Result<Option<ElementType>>
    ensures { PutsLooked result out.old.items out.new.items (one_level (looked_at (pairs_of document.now)) levels) }
{
    if levels == 0 {
        return Err(refused(Cause::TooDeep));
    }
    put_looked(out, document, levels - 1)
}

// The same, with so many levels left for the values.
#[cycle(build)]
fn put_looked(out: &mut Vec<u8>, document: &Document, levels: u32) -> Result<Option<ElementType>>
    ensures { PutsLooked result out.old.items out.new.items (looked_at (pairs_of document.now) levels) }
{
    let mut pairs = document.iter();
    let Some((key, value)) = pairs.next() else {
        put_pairs(out, document, levels)?;
        return Ok(None);
    };
    match first_key(key) {
        FirstKey::Body(wrapper) => Ok(Some(put_body(out, wrapper, value)?)),
        FirstKey::Code => Ok(Some(put_first_code(out, value, pairs, levels)?)),
        FirstKey::Ordinary => {
            put_pairs(out, document, levels)?;
            Ok(None)
        }
    }
}

// Appends the pairs of a document that stays one.
#[cycle(build)]
fn put_pairs(out: &mut Vec<u8>, document: &Document, levels: u32) -> Result<()>
    ensures { PutsPart (λ ps. enc (trees.document ps)) result out.old.items out.new.items (built_pairs (pairs_of document.now) levels) }
{
    let start = out.len();
    append(out, &[0; 4])?;
    let mut pairs = document.iter();
    while let Some((key, value)) = pairs.next() {
        put_pair(out, key, value, levels)?;
    }
    append(out, &[0])?;
    set_length(out, start);
    Ok(())
}

// Appends an element of a document.
#[cycle(build)]
fn put_pair(out: &mut Vec<u8>, key: &str, value: &Bson, levels: u32) -> Result<()>
    ensures { PutsPart (λ t. element (kind t) key.now (enc t)) result out.old.items out.new.items (under_key key.now (built (tree_of value.now) levels)) }
{
    if has_zero(key) {
        return Err(refused(Cause::ZeroByte));
    }
    let place = out.len();
    append_front(out, key)?;
    let kind = put_value(out, value, levels)?;
    set_kind(out, place, kind);
    Ok(())
}

// Appends what is before the value of an element: a zero in the place of the kind, and the key closed by a zero.
fn append_front(out: &mut Vec<u8>, key: &str) -> std::result::Result<(), AllocError>
    ensures { OnOk result (out.new.items ≡ out.old.items ++ (0 ∷ (key.now ++ 0 ∷ []))) }
{
    append(out, &[0])?;
    append_closed(out, key)
}

// Appends the code that the value of a first key is, alone, or with its scope where that comes next.
#[cycle(build)]
fn put_first_code(
    out: &mut Vec<u8>,
    value: &Bson,
    mut rest: Iter<'_>,
    levels: u32,
) -> Result<ElementType>
    ensures { Puts result out.old.items out.new.items (code_built (tree_of value.now) rest.entry levels) }
{
    let Some(code) = text_of(value) else {
        return Err(bad_body(Wrapper::Code));
    };
    let Some((key, scope)) = rest.next() else {
        return put_code(out, code);
    };
    if key.as_str() != SCOPE_KEY {
        let key = String::from_str(*out.allocator(), key.as_str())?;
        return Err(refused(Cause::UnknownField(key)));
    }
    match document_of(scope) {
        Some(scope) => put_scoped(out, code, scope, levels),
        None => Err(bad_body(Wrapper::Code)),
    }
}

// Appends a code with its scope, which is refused where it becomes another value.
#[cycle(build)]
fn put_scoped(out: &mut Vec<u8>, code: &str, scope: &Document, levels: u32) -> Result<ElementType>
    ensures { Puts result out.old.items out.new.items (with_scope code.now (one_level (looked_at (pairs_of scope.now)) levels)) }
{
    let start = out.len();
    append(out, &[0; 4])?;
    append_text(out, code)?;
    if put_document(out, scope, levels)?.is_some() {
        return Err(bad_body(Wrapper::Code));
    }
    set_length(out, start);
    Ok(ElementType::JavaScriptCodeWithScope)
}
