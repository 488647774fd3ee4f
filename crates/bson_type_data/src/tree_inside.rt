// The tree whose datum a datum is. Each function looks at a datum that is dropped by the caller, and copies its texts and bytes.
ghost use Rattle.std.specs.Prelude.{◌≡◌, IfOk, codes, string_bytes};
ghost use Rattle.std.specs.Option.{option_map};
ghost use Rattle.std.specs.Str.{bytes_eq};
ghost use Rattle.bson_kinds.specs.Outcome.{result_map};
ghost use Rattle.bson_kinds.specs.Reserved.{reserved_kind};
ghost use Rattle.bson_base.specs.BsonView.{tree_of, trees_of, pairs_of, binary_of};
ghost use Rattle.bson_base.specs.Tree as trees;
ghost use Rattle.bson_base.specs.Tree.{no_pairs};
ghost use Rattle.bson_values.specs.ByteStrView.{bytes_view};
ghost use Rattle.bson_values.specs.TextView.{text_view};
ghost use Rattle.bson_values.specs.Returned.{Reads};
ghost use Rattle.bson_datum.specs.View.{view, items_view, entries_view, fields_view};
ghost use Rattle.bson_type_data.specs.Scalars.{taken_text};
ghost use Rattle.bson_type_data.specs.Trees.{text_under, text_said, taken_under, taken_only, taken_kind, taken_struct, taken_tree, taken_trees, taken_pairs, taken_document, taken_fields, taken_scoped, are_scoped, named_code, scoped_name, scoped_tree, scoped_contents};

use crate::binary::binary_of;
use crate::data::{is_equal, struct_of_one};
use crate::extended::{date_in, id_in, stamp_of};
use crate::refusal::not_fitting;
use crate::sixteen::decimal_in;
use crate::structs::{copied, pointer_of, regex_of};
use crate::tree_data::{max_key_datum, min_key_datum, undefined_datum};
use bson_base::{Binary, BinarySubtype, Bson, Document, JavaScriptCodeWithScope};
use bson_datum::{Datum, Entry, Field};
use bson_growing::push;
use bson_kinds::{ElementType, reserved_kind};
use bson_values::{ByteStr, Text, de};
use std::alloc::{AllocError, Global};

/// The value that a datum is.
///
/// # Errors
///
/// `NotFitting` exactly where it is none, or out of memory.
#[cycle(inside)]
#[tactic(auto, using(bson_base::proofs::Rows::row_items, bson_base::proofs::Rows::row_pairs, bson_datum::proofs::Views::item_rows_items, bson_datum::proofs::Views::entry_rows_items, bson_datum::proofs::Views::rows_items))]
pub fn tree_in(alloc: Global, datum: &Datum<'_>) -> de::Result<Bson>
    ensures { Reads tree_of result (taken_tree (view datum.now)) }
{
    match datum {
        Datum::Bool(truth) => Ok(Bson::Boolean(*truth)),
        Datum::I32(number) => Ok(Bson::Int32(*number)),
        Datum::I64(number) => Ok(Bson::Int64(*number)),
        Datum::Double(number) => Ok(Bson::Double(*number)),
        Datum::Str(text) => Ok(Bson::String(String::from_str(alloc, text.as_str())?)),
        Datum::Bytes(bytes) => Ok(Bson::Binary(plain_binary(alloc, bytes)?)),
        Datum::Unit => Ok(Bson::Null),
        Datum::Seq(items) => Ok(Bson::Array(values_in(alloc, items)?)),
        Datum::Map(entries) => Ok(Bson::Document(pairs_in(alloc, entries)?)),
        Datum::Struct { name, fields } => {
            if is_scoped(name) {
                scoped_bson(alloc, fields)
            } else {
                struct_in(alloc, name.as_str(), datum)
            }
        }
        _ => Err(not_fitting()),
    }
}

// The values that data are.
#[cycle(inside)]
fn values_in(alloc: Global, items: &[Datum<'_>]) -> de::Result<Vec<Bson>>
    ensures { Reads (λ v. trees_of v.items) result (taken_trees (items_view items.now)) }
{
    let mut values = Vec::with_capacity(alloc, items.len())?;
    for item in items {
        push(&mut values, tree_in(alloc, item)?)?;
    }
    Ok(values)
}

// The document that entries are. Of a key that is there already the value is replaced.
#[cycle(inside)]
fn pairs_in(alloc: Global, entries: &[Entry<'_>]) -> de::Result<Document>
    ensures { Reads pairs_of result (taken_pairs no_pairs (entries_view entries.now)) }
{
    let mut document = Document::new(alloc);
    for entry in entries {
        let key = text_in(alloc, &entry.key)?;
        let value = tree_in(alloc, &entry.value)?;
        drop(document.insert(key, value)?);
    }
    Ok(document)
}

/// The document that a datum is.
///
/// # Errors
///
/// `NotFitting` exactly where it is none, or out of memory.
#[cycle(inside)]
#[tactic(auto, using(bson_datum::proofs::Views::entry_rows_items))]
pub fn document_in(alloc: Global, datum: &Datum<'_>) -> de::Result<Document>
    ensures { Reads pairs_of result (taken_document (view datum.now)) }
{
    match datum {
        Datum::Map(entries) => pairs_in(alloc, entries),
        _ => Err(not_fitting()),
    }
}

// Code with its scope, of the fields of its struct.
#[cycle(inside)]
#[tactic(auto, using(bson_base::proofs::Rows::row_items, bson_base::proofs::Rows::row_pairs))]
fn scoped_bson(alloc: Global, fields: &[Field<'_>]) -> de::Result<Bson>
    ensures { Reads tree_of result (result_map scoped_tree (taken_fields (fields_view fields.now))) }
{
    Ok(Bson::JavaScriptCodeWithScope(fields_in(alloc, fields)?))
}

// The code and its scope that the two fields of their struct are.
#[cycle(inside)]
fn fields_in(alloc: Global, fields: &[Field<'_>]) -> de::Result<JavaScriptCodeWithScope>
    ensures { Reads scoped_contents result (taken_fields (fields_view fields.now)) }
{
    if fields.len() != 2 {
        return Err(not_fitting());
    }
    let (code, scope) = (&fields[0], &fields[1]);
    let code = named_code(alloc, code, scope.name.as_str())?;
    with_scope(alloc, code, &scope.value)
}

// This code with the scope that a datum is.
#[cycle(inside)]
fn with_scope(alloc: Global, code: String, scope: &Datum<'_>) -> de::Result<JavaScriptCodeWithScope>
    ensures { Reads scoped_contents result (result_map (λ ps. (string_bytes code, ps)) (taken_document (view scope.now))) }
{
    let scope = document_in(alloc, scope)?;
    Ok(JavaScriptCodeWithScope { code, scope })
}

// The code that a field is, where it and the next one have the names of code and of a scope.
fn named_code(alloc: Global, code: &Field<'_>, scope_name: &str) -> de::Result<String>
    ensures { Reads string_bytes result (named_code (text_view code.now.name) scope_name.now (taken_text (view code.now.value))) }
{
    if are_scoped(code.name.as_str(), scope_name) {
        return text_in(alloc, &code.value);
    }
    Err(not_fitting())
}

// Whether these are the names of code and of a scope.
fn are_scoped(code: &str, scope: &str) -> bool
    ensures { result ≡ are_scoped code.now scope.now }
{
    code == "$code" && scope == "$scope"
}

// Whether this is the name of the struct of code with its scope.
fn is_scoped(name: &Text<'_>) -> bool
    ensures { result ≡ bytes_eq (text_view name.now) scoped_name }
{
    name.as_str() == "$codeWithScope"
}

/// The code with its scope that a datum is.
///
/// # Errors
///
/// `NotFitting` exactly where it is none, or out of memory.
#[tactic(auto, using(bson_datum::proofs::Views::rows_items))]
pub fn scoped_in(alloc: Global, datum: &Datum<'_>) -> de::Result<JavaScriptCodeWithScope>
    ensures { Reads scoped_contents result (taken_scoped (view datum.now)) }
{
    match datum {
        Datum::Struct { name, fields } => {
            if is_scoped(name) {
                fields_in(alloc, fields)
            } else {
                Err(not_fitting())
            }
        }
        _ => Err(not_fitting()),
    }
}

// The value that a struct of this name is, if not code with its scope.
fn struct_in(alloc: Global, name: &str, datum: &Datum<'_>) -> de::Result<Bson>
    ensures { Reads tree_of result (taken_struct (reserved_kind name.now) (view datum.now)) }
{
    match reserved_kind(name) {
        Some(kind) => kind_in(alloc, kind, datum),
        None => Err(not_fitting()),
    }
}

// The value of this kind that a struct is.
fn kind_in(alloc: Global, kind: ElementType, datum: &Datum<'_>) -> de::Result<Bson>
    ensures { Reads tree_of result (taken_kind kind (view datum.now)) }
{
    match kind {
        ElementType::Binary => Ok(Bson::Binary(binary_of(alloc, datum)?)),
        ElementType::Undefined => undefined_in(alloc, datum),
        ElementType::ObjectId => Ok(Bson::ObjectId(id_in(alloc, datum)?)),
        ElementType::DateTime => Ok(Bson::DateTime(date_in(alloc, datum)?)),
        ElementType::RegularExpression => Ok(Bson::RegularExpression(regex_of(alloc, datum)?)),
        ElementType::DbPointer => Ok(Bson::DbPointer(pointer_of(alloc, datum)?)),
        ElementType::JavaScriptCode => { Ok(Bson::JavaScriptCode(code_in(alloc, datum)?)) }
        ElementType::Symbol => Ok(Bson::Symbol(symbol_in(alloc, datum)?)),
        ElementType::Timestamp => Ok(Bson::Timestamp(stamp_of(alloc, datum)?)),
        ElementType::Decimal128 => Ok(Bson::Decimal128(decimal_in(alloc, datum)?)),
        ElementType::MaxKey => max_key_in(alloc, datum),
        ElementType::MinKey => min_key_in(alloc, datum),
        _ => Err(not_fitting()),
    }
}

// The text that a datum is, copied.
fn text_in(alloc: Global, datum: &Datum<'_>) -> de::Result<String>
    ensures { Reads string_bytes result (taken_text (view datum.now)) }
{
    match datum {
        Datum::Str(text) => Ok(String::from_str(alloc, text.as_str())?),
        _ => Err(not_fitting()),
    }
}

// The binary of subtype 0 of these bytes.
fn plain_binary(alloc: Global, bytes: &ByteStr<'_>) -> Result<Binary, AllocError>
    ensures { IfOk result (λ b. binary_of b ≡ trees.binary 0 (bytes_view bytes.now)) }
{
    let bytes = bytes.as_bytes().to_vec(alloc)?;
    Ok(Binary::from_parts(BinarySubtype(0), bytes))
}

// The code that a datum is.
fn code_in(alloc: Global, datum: &Datum<'_>) -> de::Result<String>
    ensures { Reads string_bytes result (taken_under (codes "$code") (view datum.now)) }
{
    let Some(text) = text_said(datum, "$code") else {
        return Err(not_fitting());
    };
    if is_equal(code_datum(alloc, text)?, datum) {
        return Ok(String::from_str(alloc, text)?);
    }
    Err(not_fitting())
}

// The datum of code, which is copied.
fn code_datum<'x>(alloc: Global, code: &str) -> Result<Datum<'x>, AllocError>
    ensures { IfOk result (λ d. view d ≡ text_under (codes "$code") code.now) }
{
    let code = copied(alloc, code)?;
    struct_of_one(alloc, "$code", "$code", code)
}

// The text of the deprecated kind Symbol that a datum is.
fn symbol_in(alloc: Global, datum: &Datum<'_>) -> de::Result<String>
    ensures { Reads string_bytes result (taken_under (codes "$symbol") (view datum.now)) }
{
    let Some(text) = text_said(datum, "$symbol") else {
        return Err(not_fitting());
    };
    if is_equal(symbol_datum(alloc, text)?, datum) {
        return Ok(String::from_str(alloc, text)?);
    }
    Err(not_fitting())
}

// The datum of such a text, which is copied.
fn symbol_datum<'x>(alloc: Global, text: &str) -> Result<Datum<'x>, AllocError>
    ensures { IfOk result (λ d. view d ≡ text_under (codes "$symbol") text.now) }
{
    let text = copied(alloc, text)?;
    struct_of_one(alloc, "$symbol", "$symbol", text)
}

// The text in the field of this name.
fn text_said<'d>(datum: &'d Datum<'_>, name: &str) -> Option<&'d str>
    ensures { option_map (λ t. t.now) result ≡ text_said name.now (view datum.now) }
{
    datum.field(name)?.as_str()
}

// Undefined, where the datum is that of it.
fn undefined_in(alloc: Global, datum: &Datum<'_>) -> de::Result<Bson>
    ensures { Reads tree_of result (taken_only trees.undefined (view datum.now)) }
{
    if is_equal(undefined_datum(alloc)?, datum) {
        Ok(Bson::Undefined)
    } else {
        Err(not_fitting())
    }
}

// MaxKey, where the datum is that of it.
fn max_key_in(alloc: Global, datum: &Datum<'_>) -> de::Result<Bson>
    ensures { Reads tree_of result (taken_only trees.max_key (view datum.now)) }
{
    if is_equal(max_key_datum(alloc)?, datum) {
        Ok(Bson::MaxKey)
    } else {
        Err(not_fitting())
    }
}

// MinKey, where the datum is that of it.
fn min_key_in(alloc: Global, datum: &Datum<'_>) -> de::Result<Bson>
    ensures { Reads tree_of result (taken_only trees.min_key (view datum.now)) }
{
    if is_equal(min_key_datum(alloc)?, datum) {
        Ok(Bson::MinKey)
    } else {
        Err(not_fitting())
    }
}
