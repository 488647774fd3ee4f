// A document read at a shape and written anew by way of trees.
ghost use Rattle.bson_base.specs.BsonView.{pairs_of};
ghost use Rattle.bson_kinds.specs.Outcome.{◌>>=◌ as and_then};
ghost use Rattle.bson_datum.specs.View.{view};
ghost use Rattle.bson_rawdoc.specs.DocumentTree.{document_pairs, Gives};
ghost use Rattle.bson_rawdoc.specs.Envelope.{envelope};
ghost use Rattle.bson_tree_recast.specs.ByTree.{document_step, value_step, made_step, bytes_step, tree_recast_of};
ghost use Rattle.bson_tree_recast.specs.Recast.{recast_of, IfUnwritten, IsForNoNumber, IsRecast, Steps};
ghost use Rattle.bson_tree_recast.specs.Ways.{HasCommonRecast, HasDocument, GivesSame, TakesSame};
ghost use Rattle.bson_ways_laws.specs.Simple.{IsSimple};
ghost use Rattle.bson_ways_laws.specs.Ways.{SuitsBothWays, HasFreeInput};

use crate::error::{RecastError, unencoded, unread};
use bson_base::Document;
use bson_datum::Datum;
use bson_de_tree::{DeserializerOptions, from_document_with_options_at};
use bson_rawdoc::{RawDocument, raw};
use bson_ser_tree::{SerializerOptions, to_document_with_options_at};
use bson_shape::Shape;
use std::alloc::Global;

/// Reads the bytes of a document at a shape, and gives the bytes of what was read, by way of trees: the document of the bytes, the value that this is at the
/// shape, the document that the value is made into, and its bytes. The reader is not human, and a value of two forms is written in its compact one.
///
/// Where no document of the input repeats a key or has one that begins with `$`, and the shape has no raw shape, no `readable`, no `mode` and no name that begins
/// with `$` (`SuitsBothWays`), it gives the bytes that `recast` gives, wherever it gives any, if no key in these begins with `$`.
///
/// At every shape what was read is never refused as `UnsignedIntegerExceededRange`.
///
/// # Errors
///
/// No error carries a path.
///
/// - `Read` where the bytes are not framed as a document or have no tree, as `DeserializationError` with `Raw`; and where `from_document_with_options_at` refuses
///   the document at the shape, with its error.
/// - `Write` where `to_document_with_options_at` refuses what was read, with its error; and where the document that was made has no bytes: `InvalidCString` with a key, or a
///   part of a regular expression, that holds a zero character, `SerializationError` with `BinaryTooLong` or with `TooLong`.
/// - `NoMemory` where memory ran out.
pub fn recast_by_tree(alloc: Global, shape: &Shape, bytes: &[u8]) -> Result<Vec<u8>, RecastError>
    // The document of the bytes, the value that it is at the shape, the document that this is made into, its bytes.
    ensures exact { IsRecast (tree_recast_of shape.now bytes.now) result }
    // Two ways agree: where no document of the input repeats a key or has one that begins with `$`, and the other way writes a document without such keys, this one
    // gives the same bytes, wherever it gives any.
    ensures agrees { SuitsBothWays shape.now → HasFreeInput bytes.now → HasCommonRecast shape.now bytes.now
        → GivesSame (recast_of shape.now bytes.now) result }
    // At a shape of structs, sequences, integers, booleans and strings alone each way takes such an input exactly where the other does.
    ensures takes { IsSimple shape.now → HasFreeInput bytes.now → HasDocument bytes.now → TakesSame (recast_of shape.now bytes.now) result }
    // At no shape is what was read refused for a number that no Int64 holds.
    ensures numbers { IfUnwritten IsForNoNumber result }
{
    shape.known();
    through(alloc, shape, bytes)
}

// `recast_by_tree`, but for its other promises.
#[tactic(auto, using(crate::proofs::Steps::all_made, crate::proofs::Steps::document_ends, crate::proofs::Steps::value_ends, crate::proofs::Steps::made_ends))]
fn through(alloc: Global, shape: &Shape, bytes: &[u8]) -> Result<Vec<u8>, RecastError>
    ensures { IsRecast (tree_recast_of shape.now bytes.now) result }
{
    let document = document_of(alloc, bytes)?;
    let value = value_of(alloc, shape, document)?;
    let made = made_of(alloc, &value)?;
    bytes_of(alloc, &made)
}

// The document of the bytes.
#[tactic(auto, using(crate::proofs::Steps::ends_given, crate::proofs::Steps::document_stopped))]
fn document_of(alloc: Global, bytes: &[u8]) -> Result<Document, RecastError>
    ensures { Steps pairs_of result (document_step bytes.now) }
{
    match document_in(alloc, bytes) {
        Ok(document) => Ok(document),
        Err(fault) => Err(unread(fault)),
    }
}

// The same, refused for the fault of the bytes.
#[tactic(auto, using(crate::proofs::Steps::unframed, crate::proofs::Steps::framed))]
fn document_in(alloc: Global, bytes: &[u8]) -> Result<Document, raw::Error>
    ensures { Gives pairs_of result (and_then (envelope bytes.now) document_pairs) }
{
    RawDocument::from_bytes(bytes)?.to_document(alloc)
}

// The value that a document is at the shape.
#[tactic(auto, using(crate::proofs::Steps::ends_given, crate::proofs::Steps::value_stops))]
fn value_of<'x>(alloc: Global, shape: &Shape, document: Document) -> Result<Datum<'x>, RecastError>
    ensures { Steps view result (value_step shape.now (pairs_of document)) }
{
    let options = DeserializerOptions {
        human_readable: Some(false),
    };
    let value = from_document_with_options_at(alloc, shape, document, options)?;
    Ok(value)
}

// The document that a value is made into.
#[tactic(auto, using(crate::proofs::Steps::ends_given, crate::proofs::Steps::made_stops))]
fn made_of(alloc: Global, value: &Datum<'_>) -> Result<Document, RecastError>
    ensures { Steps pairs_of result (made_step (view value.now)) }
{
    let options = SerializerOptions {
        human_readable: Some(false),
    };
    let document = to_document_with_options_at(alloc, value, options)?;
    Ok(document)
}

// The bytes of a document.
#[tactic(auto, using(crate::proofs::Steps::ends_given, crate::proofs::Steps::bytes_stopped))]
fn bytes_of(alloc: Global, document: &Document) -> Result<Vec<u8>, RecastError>
    ensures { Steps (λ v. v.items) result (bytes_step (pairs_of document.now)) }
{
    match document.to_vec(alloc) {
        Ok(bytes) => Ok(bytes),
        Err(error) => Err(unencoded(error)),
    }
}
