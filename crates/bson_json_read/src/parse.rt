ghost use Rattle.json.specs.Value.{value_view};
ghost use Rattle.bson_base.specs.BsonView.{pairs_of, tree_of};
ghost use Rattle.bson_json_laws.specs.FailureView.{unread};
ghost use Rattle.bson_json_laws.specs.Gives.{Gives, Reaches};
ghost use Rattle.bson_json_laws.specs.ReadText.{document_of_json, document_of_text, only_document};

use crate::reading::read_value;
use crate::refused::{Reading, refused};
use bson_base::{Bson, Document, KeySeed};
use bson_json_laws::{Failure, JsonFault, is_within_levels};
use json::{Error, Reader, Scratch, Value};
use std::alloc::{AllocError, Global};

/// How deep objects and arrays may nest in a text: twice for each of 200 levels, and three times for the innermost value.
const MOST_NESTING: usize = 403;

/// The document that a text stands for, in the canonical or the relaxed form.
///
/// # Errors
///
/// As [`parse_json`] gives them.
pub fn from_json(alloc: Global, text: &str) -> Result<Document, Failure<JsonFault>>
    ensures document { Gives pairs_of unread result (document_of_text text.now) }
{
    let mut scratch = Scratch::new(alloc);
    parse_json(alloc, text, &mut scratch)
}

/// The same, with room for the texts that have escapes, which a caller keeps from text to text. How keys are hashed depends on all bytes of the text: see `KeySeed`.
///
/// Source: MongoDB's extended JSON, version 2, "Parsers", over RFC 8259.
///
/// # Errors
///
/// `NotJson` where the text is not JSON that nests at most 403 deep. Else the first of these in the order of the text, with its path, an inner value before the object that has it: `KeyTwice`,
/// `NumberTooLarge`, `BadWrapper`. Else `NotDocument` where the value is no document, and `TooDeep` where it has more than 200 levels. `NoMemory` where memory ran out.
pub fn parse_json(
    alloc: Global,
    text: &str,
    scratch: &mut Scratch,
) -> Result<Document, Failure<JsonFault>>
    ensures document { Gives pairs_of unread result (document_of_text text.now) }
{
    match parse(alloc, text, scratch) {
        Ok(document) => Ok(document),
        Err(stop) => Err(Failure::from_stop(stop)),
    }
}

// The same, with the path so far.
fn parse(alloc: Global, text: &str, scratch: &mut Scratch) -> Reading<Document>
    ensures { Reaches pairs_of unread result (document_of_text text.now) }
{
    let mut reader = Reader::new(text, scratch)?;
    let value = match Value::read(alloc, &mut reader, MOST_NESTING) {
        Ok(value) => value,
        Err(Error::OutOfMemory) => return Err(AllocError.into()),
        Err(_) => return Err(refused(alloc, JsonFault::NotJson(reader.offset()))),
    };
    if reader.next().is_some() {
        return Err(refused(alloc, JsonFault::NotJson(reader.offset())));
    }
    document_of(alloc, KeySeed::of(text.as_bytes()), &value)
}

// The document that a JSON value stands for.
fn document_of(alloc: Global, seed: KeySeed, value: &Value<'_>) -> Reading<Document>
    ensures { Reaches pairs_of unread result (document_of_json (value_view value.now)) }
{
    document_in(alloc, read_value(alloc, seed, value)?)
}

// The document that a value is.
#[tactic(auto, using(bson_base::proofs::Rows::row_items, bson_base::proofs::Rows::row_pairs))]
fn document_in(alloc: Global, value: Bson) -> Reading<Document>
    ensures { Reaches pairs_of unread result (only_document (tree_of value)) }
{
    let Bson::Document(document) = value else {
        return Err(refused(alloc, JsonFault::NotDocument));
    };
    if !is_within_levels(&document) {
        return Err(refused(alloc, JsonFault::TooDeep));
    }
    Ok(document)
}
