// Whole values, and documents.
ghost use Rattle.std.specs.Prelude.{◌≡◌, true, unwrap_or};
ghost use Rattle.bson_base.specs.BsonView.{tree_of, pairs_of};
ghost use Rattle.bson_values.specs.Returned.{Writes};
ghost use Rattle.bson_datum.specs.View.{view};
ghost use Rattle.bson_tree_laws.specs.TreeSpell.{tree_whole};
ghost use Rattle.bson_ser_tree.specs.Answers.{with_paths, without_paths, only_document, document_whole};
ghost use Rattle.bson_ser_tree.specs.Gives.{Reaches};

use crate::options::SerializerOptions;
use crate::stopping::{Writing, refused_for, without_path};
use crate::value::tree_value;
use bson_base::{Bson, Document};
use bson_datum::{Datum, MAX_NESTING_LEVEL};
use bson_values::Cause;
use bson_values::ser::{Error, Result};
use std::alloc::Global;

/// The tree of a whole value, in its readable form or in its compact one.
pub(crate) fn whole(alloc: Global, value: &Datum<'_>, readable: bool) -> Writing<Bson>
    ensures { Reaches tree_of result (tree_whole readable (view value.now)) }
{
    tree_value(alloc, value, readable, false, MAX_NESTING_LEVEL)
}

/// The BSON value of a datum, for readers who are human: a `Mode` is its readable form.
///
/// A struct is a document of its fields, a map a document of its entries, in order; a repeated key keeps its place and takes the newer value. A variant with
/// contents is a document of one pair: under the name of the variant is the value of a `NewtypeVariant`, an array of the values of a `TupleVariant`, or a document
/// of the fields of a `StructVariant`. A sequence, a tuple and a tuple struct are an array of their values. `Bool` is a Boolean, `I8`, `I16`, `I32`, `U8` and
/// `U16` are an Int32, `I64`, `U32` and `U64` an Int64, `Double` is a Double, `Str`, `Char` and the name of a `UnitVariant` are a String, and `Bytes` is a
/// Binary of subtype 0. `None`, `Unit` and `UnitStruct` are Null. `Some` and `NewtypeStruct` are the value in them; the newtype `$__bson_private_uuid` is a
/// Binary of subtype 4 of the bytes that it holds, and the content of `$__bson_private_human_readable` is readable in every case.
///
/// Each document of a map, a struct and the fields of a struct variant is folded after its parts were made
/// ([`Bson::from_extended_document`]): so the structs of reserved names become values of the kinds that serde's data model lacks, and so do maps with the same
/// keys. The document that a variant is, is not folded.
///
/// `RawDocument` and `RawArray` are read, as [`RawDocument::to_document`](bson_rawdoc::RawDocument::to_document) and
/// [`RawArray::to_values`](bson_rawdoc::RawArray::to_values) read them, and not folded.
///
/// # Errors
///
/// The first refusal in document order, as `WithPath`, or `NoMemory`. A key comes before its value.
///
/// - `SerializationError` with `TooDeep`: a document or an array is at level 201. The whole value is at level 1. A struct whose name is reserved for a kind
///   takes no level, nor does a struct that is reached from such a one by fields alone.
/// - `SerializationError` with `Raw`: a fault of the bytes of a `RawDocument` or a `RawArray`. In these bytes levels count from 1 again.
/// - `SerializationError` with `BadUuid`: the newtype `$__bson_private_uuid` holds no UUID: bytes, or in a readable form a text of one.
/// - `UnsignedIntegerExceededRange`: a `U64` is greater than 9223372036854775807, the greatest that an Int64 holds.
/// - `InvalidDocumentKey`: the BSON value of a key of a map is no String. It carries that value, and the path is that of the map.
pub fn to_bson_at(alloc: Global, value: &Datum<'_>) -> Result<Bson>
    ensures exact { Writes tree_of result (with_paths (tree_whole true (view value.now))) }
{
    match whole(alloc, value, true) {
        Ok(tree) => Ok(tree),
        Err(stop) => Err(Error::from_stop(alloc, stop)),
    }
}

/// The BSON value of a datum, as [`to_bson_at`] makes it, with these options.
///
/// # Errors
///
/// Those of [`to_bson_at`], without their paths.
pub fn to_bson_with_options_at(
    alloc: Global,
    value: &Datum<'_>,
    options: SerializerOptions,
) -> Result<Bson>
    ensures exact { Writes tree_of result
        (without_paths (tree_whole (unwrap_or options.human_readable true) (view value.now))) }
{
    match whole(alloc, value, options.human_readable.unwrap_or(true)) {
        Ok(tree) => Ok(tree),
        Err(stop) => Err(without_path(stop)),
    }
}

/// The document that a datum is, as [`to_bson_at`] makes it.
///
/// # Errors
///
/// Those of [`to_bson_at`], without their paths; and `SerializationError` with `NotDocument` where the BSON value is of another kind.
pub fn to_document_at(alloc: Global, value: &Datum<'_>) -> Result<Document>
    ensures exact { Writes pairs_of result
        (without_paths (document_whole true (view value.now))) }
{
    let options = SerializerOptions {
        human_readable: Some(true),
    };
    to_document_with_options_at(alloc, value, options)
}

/// The document that a datum is, as [`to_bson_at`] makes it, with these options.
///
/// # Errors
///
/// Those of [`to_document_at`].
pub fn to_document_with_options_at(
    alloc: Global,
    value: &Datum<'_>,
    options: SerializerOptions,
) -> Result<Document>
    ensures exact { Writes pairs_of result
        (without_paths (document_whole (unwrap_or options.human_readable true) (view value.now))) }
{
    match document(alloc, value, options.human_readable.unwrap_or(true)) {
        Ok(document) => Ok(document),
        Err(stop) => Err(without_path(stop)),
    }
}

// The tree of a whole value, where it is a document.
fn document(alloc: Global, value: &Datum<'_>, readable: bool) -> Writing<Document>
    ensures { Reaches pairs_of result (document_whole readable (view value.now)) }
{
    let tree = whole(alloc, value, readable)?;
    document_of(alloc, tree)
}

// The document that a value is.
#[tactic(auto, using(bson_base::proofs::Rows::row_items, bson_base::proofs::Rows::row_pairs))]
fn document_of(alloc: Global, value: Bson) -> Writing<Document>
    ensures { Reaches pairs_of result (only_document (tree_of value)) }
{
    match value {
        Bson::Document(document) => Ok(document),
        other => Err(refused_for(alloc, Cause::NotDocument(other.element_type()))),
    }
}
