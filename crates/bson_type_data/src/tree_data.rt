// Trees as data, which borrow the texts and the bytes of the values that they are made of.
ghost use Rattle.std.specs.Prelude.{◌≡◌, IfOk};
ghost use Rattle.bson_base.specs.BsonView.{tree_of, trees_of, pairs_of, scoped_of};
ghost use Rattle.bson_base.specs.Tree as trees;
ghost use Rattle.bson_datum.specs.View.{view};
ghost use Rattle.bson_laws.specs.Datum.{datum, itself};
ghost use Rattle.bson_type_data.specs.Trees.{text_under};

use crate::binary::borrowed_binary;
use crate::data::{struct_of_one, struct_of_two};
use crate::extended::{date_datum, id_datum, stamp_datum};
use crate::sixteen::decimal_datum;
use crate::structs::{pointer_datum, regex_datum};
use bson_base::{Bson, Document, JavaScriptCodeWithScope};
use bson_datum::{Datum, Entry};
use bson_growing::push;
use bson_values::Text;
use std::alloc::{AllocError, Global};

/// The datum of a value.
///
/// # Errors
///
/// Memory ran out.
#[cycle(data)]
#[tactic(auto, using(bson_base::proofs::Rows::row_items, bson_base::proofs::Rows::row_pairs))]
pub fn tree_datum(alloc: Global, value: &Bson) -> Result<Datum<'_>, AllocError>
    ensures { IfOk result (λ d. view d ≡ datum itself (tree_of value.now)) }
{
    match value {
        Bson::Double(number) => Ok(Datum::Double(*number)),
        Bson::String(text) => Ok(Datum::Str(Text::Borrowed(text.as_str()))),
        Bson::Array(values) => values_datum(alloc, values),
        Bson::Document(document) => document_datum(alloc, document),
        Bson::Boolean(truth) => Ok(Datum::Bool(*truth)),
        Bson::Null => Ok(Datum::Unit),
        Bson::RegularExpression(regex) => regex_datum(alloc, regex.pattern(), regex.options()),
        Bson::JavaScriptCode(code) => text_datum(alloc, "$code", code.as_str()),
        Bson::JavaScriptCodeWithScope(scoped) => scoped_datum(alloc, scoped),
        Bson::Int32(number) => Ok(Datum::I32(*number)),
        Bson::Int64(number) => Ok(Datum::I64(*number)),
        Bson::Timestamp(stamp) => stamp_datum(alloc, *stamp),
        Bson::Binary(binary) => borrowed_binary(alloc, binary),
        Bson::ObjectId(id) => id_datum(alloc, *id),
        Bson::DateTime(time) => date_datum(alloc, *time),
        Bson::Symbol(text) => text_datum(alloc, "$symbol", text.as_str()),
        Bson::Decimal128(number) => decimal_datum(alloc, *number),
        Bson::Undefined => undefined_datum(alloc),
        Bson::MaxKey => max_key_datum(alloc),
        Bson::MinKey => min_key_datum(alloc),
        Bson::DbPointer(pointer) => pointer_datum(alloc, pointer.namespace.as_str(), pointer.id),
    }
}

// The datum of an array.
#[cycle(data)]
fn values_datum(alloc: Global, values: &[Bson]) -> Result<Datum<'_>, AllocError>
    ensures { IfOk result (λ d. view d ≡ datum itself (trees.array (trees_of values.now))) }
{
    let mut items = Vec::with_capacity(alloc, values.len())?;
    for value in values {
        push(&mut items, tree_datum(alloc, value)?)?;
    }
    Ok(Datum::Seq(items))
}

/// The datum of a document.
///
/// # Errors
///
/// Memory ran out.
#[cycle(data)]
pub fn document_datum(alloc: Global, document: &Document) -> Result<Datum<'_>, AllocError>
    ensures { IfOk result (λ d. view d ≡ datum itself (trees.document (pairs_of document.now))) }
{
    let mut entries = Vec::with_capacity(alloc, document.len())?;
    for (key, value) in document.iter() {
        let value = tree_datum(alloc, value)?;
        push(
            &mut entries,
            Entry {
                key: Datum::Str(Text::Borrowed(key.as_str())),
                value,
            },
        )?;
    }
    Ok(Datum::Map(entries))
}

/// The datum of code with its scope.
///
/// # Errors
///
/// Memory ran out.
#[cycle(data)]
pub fn scoped_datum(
    alloc: Global,
    scoped: &JavaScriptCodeWithScope,
) -> Result<Datum<'_>, AllocError>
    ensures { IfOk result (λ d. view d ≡ datum itself (scoped_of scoped.now)) }
{
    let scope = document_datum(alloc, &scoped.scope)?;
    let code = Datum::Str(Text::Borrowed(scoped.code.as_str()));
    struct_of_two(alloc, "$codeWithScope", ("$code", code), ("$scope", scope))
}

// The datum of a text under this name, which is borrowed.
fn text_datum<'a>(alloc: Global, name: &'a str, text: &'a str) -> Result<Datum<'a>, AllocError>
    ensures { IfOk result (λ d. view d ≡ text_under name.now text.now) }
{
    struct_of_one(alloc, name, name, Datum::Str(Text::Borrowed(text)))
}

// The datum of Undefined.
pub(crate) fn undefined_datum<'x>(alloc: Global) -> Result<Datum<'x>, AllocError>
    ensures { IfOk result (λ d. view d ≡ datum itself trees.undefined) }
{
    struct_of_one(alloc, "$undefined", "$undefined", Datum::Bool(true))
}

// The datum of MaxKey.
pub(crate) fn max_key_datum<'x>(alloc: Global) -> Result<Datum<'x>, AllocError>
    ensures { IfOk result (λ d. view d ≡ datum itself trees.max_key) }
{
    struct_of_one(alloc, "$maxKey", "$maxKey", Datum::I32(1))
}

// The datum of MinKey.
pub(crate) fn min_key_datum<'x>(alloc: Global) -> Result<Datum<'x>, AllocError>
    ensures { IfOk result (λ d. view d ≡ datum itself trees.min_key) }
{
    struct_of_one(alloc, "$minKey", "$minKey", Datum::I32(1))
}
