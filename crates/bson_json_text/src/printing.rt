// Documents as tokens.
ghost use Rattle.std.specs.Prelude.{OnOk};
ghost use Rattle.bson_base.specs.BsonView.{tree_of, trees_of, pairs_of};
ghost use Rattle.bson_base.specs.Tree as trees;
ghost use Rattle.bson_json_text.specs.Puts.{Puts, Begins, BeginsArray, ClosesArray};

use crate::dates::put_date;
use crate::doubles::put_double;
use crate::leaves::{
    close, next, open, put_binary, put_boolean, put_decimal, put_id, put_integer, put_null,
    put_one_at, put_pointer, put_regex, put_string, put_text_at, put_timestamp, put_undefined,
};
use bson_base::{Bson, Document};
use bson_json_laws::JsonForm;
use json::Writer;
use std::alloc::{AllocError, Global};

// Begins an object.
fn begin(writer: &mut Writer) -> Result<(), AllocError>
    ensures { OnOk result (Begins writer.old writer.new) }
{
    writer.begin_object()
}

// Begins an array.
fn begin_array(writer: &mut Writer) -> Result<(), AllocError>
    ensures { OnOk result (BeginsArray writer.old writer.new) }
{
    writer.begin_array()
}

// Closes an array.
fn close_array(writer: &mut Writer) -> Result<(), AllocError>
    ensures { OnOk result (ClosesArray writer.old writer.new) }
{
    writer.end_array()
}

// Puts a value.
#[cycle(put)]
#[tactic(auto, using(crate::proofs::Putting::puts, bson_base::proofs::Rows::row_items, bson_base::proofs::Rows::row_pairs))]
fn put_value(
    writer: &mut Writer,
    alloc: Global,
    form: JsonForm,
    value: &Bson,
) -> Result<(), AllocError>
    ensures { OnOk result (Puts form (tree_of value.now) writer.old writer.new) }
{
    match value {
        Bson::Double(number) => put_double(writer, form, *number),
        Bson::String(text) => put_string(writer, text),
        Bson::Array(values) => put_array(writer, alloc, form, values),
        Bson::Document(document) => put_document(writer, alloc, form, document),
        Bson::Boolean(truth) => put_boolean(writer, *truth),
        Bson::Null => put_null(writer),
        Bson::RegularExpression(regex) => put_regex(writer, regex),
        Bson::JavaScriptCode(code) => put_text_at(writer, "$code", code),
        Bson::JavaScriptCodeWithScope(scoped) => put_scoped(
            writer,
            alloc,
            form,
            &scoped.code,
            &scoped.scope,
        ),
        Bson::Int32(number) => put_int32(writer, form, *number),
        Bson::Int64(number) => put_integer(writer, form, "$numberLong", *number),
        Bson::Timestamp(timestamp) => put_timestamp(writer, *timestamp),
        Bson::Binary(binary) => put_binary(writer, alloc, binary),
        Bson::ObjectId(id) => put_id(writer, alloc, *id),
        Bson::DateTime(time) => put_date(writer, alloc, form, *time),
        Bson::Symbol(text) => put_text_at(writer, "$symbol", text),
        Bson::Decimal128(number) => put_decimal(writer, alloc, *number),
        Bson::Undefined => put_undefined(writer),
        Bson::MaxKey => put_one_at(writer, "$maxKey"),
        Bson::MinKey => put_one_at(writer, "$minKey"),
        Bson::DbPointer(pointer) => put_pointer(writer, alloc, pointer),
    }
}

// Puts an Int32.
#[tactic(auto, using(crate::proofs::Putting::puts))]
fn put_int32(writer: &mut Writer, form: JsonForm, number: i32) -> Result<(), AllocError>
    ensures { OnOk result (Puts form (trees.int32 number) writer.old writer.new) }
{
    put_integer(writer, form, "$numberInt", i64::from(number))
}

// Puts a document.
#[cycle(put)]
#[tactic(auto, using(crate::proofs::Putting::going_first, crate::proofs::Putting::going_on, crate::proofs::Putting::going_last))]
pub(crate) fn put_document(
    writer: &mut Writer,
    alloc: Global,
    form: JsonForm,
    document: &Document,
) -> Result<(), AllocError>
    ensures { OnOk result (Puts form (trees.document (pairs_of document.now)) writer.old writer.new) }
{
    begin(writer)?;
    let mut pairs = document.iter();
    while let Some((key, value)) = pairs.next() {
        next(writer, key)?;
        put_value(writer, alloc, form, value)?;
    }
    close(writer)
}

// Puts an array.
#[cycle(put)]
#[tactic(auto, using(crate::proofs::Putting::passing_first, crate::proofs::Putting::passing_on, crate::proofs::Putting::passing_last))]
fn put_array(
    writer: &mut Writer,
    alloc: Global,
    form: JsonForm,
    values: &[Bson],
) -> Result<(), AllocError>
    ensures { OnOk result (Puts form (trees.array (trees_of values.now)) writer.old writer.new) }
{
    begin_array(writer)?;
    for value in values {
        put_value(writer, alloc, form, value)?;
    }
    close_array(writer)
}

// Puts code with its scope.
#[cycle(put)]
#[tactic(auto, using(crate::proofs::Putting::scope_closed))]
fn put_scoped(
    writer: &mut Writer,
    alloc: Global,
    form: JsonForm,
    code: &str,
    scope: &Document,
) -> Result<(), AllocError>
    ensures { OnOk result (Puts form (trees.javascript_code_with_scope code.now (pairs_of scope.now)) writer.old writer.new) }
{
    open(writer, "$code")?;
    put_string(writer, code)?;
    next(writer, "$scope")?;
    put_document(writer, alloc, form, scope)?;
    close(writer)
}
