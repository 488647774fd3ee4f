// The tree that a document is, from its bytes.
ghost use Rattle.std.specs.Prelude.{◌≡◌, IfOk, OnOk};
ghost use Rattle.bson_base.specs.BsonView.{tree_of, trees_of, pairs_of};
ghost use Rattle.bson_base.specs.Sorted.{sorted};
ghost use Rattle.bson_rawdoc.specs.DocumentTree.{and_last, pairs_at, trees_at, tree_at, document_pairs, array_trees, Gives};
ghost use Rattle.bson_rawdoc.specs.DocumentView.{document_bytes, array_bytes};
ghost use Rattle.bson_rawdoc.specs.ValueView.{raw_value};

use crate::array::RawArray;
use crate::document::RawDocument;
use crate::raw::Error;
use crate::value::RawBsonRef;
use bson_base::{
    Binary, Bson, DbPointer, Document, JavaScriptCodeWithScope, KeySeed, MAX_NESTING_LEVEL, Regex,
};
use std::alloc::{AllocError, Global};

impl RawDocument<'_> {
    /// The tree that the document is, with texts, bytes and values of its own.
    ///
    /// A repeated key keeps its first place and takes its last value, and the options of a regular expression are put in order. Of an array the keys are not looked at.
    /// How keys are hashed depends on all bytes of the document, so that none can be chosen beforehand to have one hash: see `KeySeed`.
    ///
    /// # Errors
    ///
    /// The first fault of any level in document order: that of a value, as `RawElement::value` gives it, or of a list of elements, where it ends. `TooDeep` at a document,
    /// an array or a scope at level 201, after the faults of its own value, where the whole document is at level 1. `NoMemory` where memory ran out.
    pub fn to_document(&self, alloc: Global) -> Result<Document, Error>
        ensures pairs { Gives pairs_of result (document_pairs (document_bytes self.now)) }
    {
        let seed = KeySeed::of(self.as_bytes());
        document_of(alloc, *self, MAX_NESTING_LEVEL, seed)
    }
}

impl RawArray<'_> {
    /// The values of the array, each as in [`RawDocument::to_document`]: with texts, bytes and values of its own.
    ///
    /// # Errors
    ///
    /// Those of [`RawDocument::to_document`], where the whole array is at level 1.
    pub fn to_values(&self, alloc: Global) -> Result<Vec<Bson>, Error>
        ensures values { Gives (λ v. trees_of v.items) result (array_trees (array_bytes self.now)) }
    {
        let seed = KeySeed::of(self.as_bytes());
        values_of(alloc, *self, MAX_NESTING_LEVEL, seed)
    }
}

// The document of these elements.
#[cycle(tree)]
fn document_of(
    alloc: Global,
    document: RawDocument<'_>,
    levels: u32,
    seed: KeySeed,
) -> Result<Document, Error>
    ensures { Gives pairs_of result (pairs_at levels (document_bytes document.entry)) }
{
    if levels == 0 {
        return Err(Error::TooDeep);
    }
    let mut pairs = Document::with_seed(alloc, seed);
    for element in document.iter_elements() {
        let element = element?;
        let value = value_of(alloc, element.value()?, levels - 1, seed)?;
        let key = String::from_str(alloc, element.key())?;
        pairs.insert(key, value)?;
    }
    Ok(pairs)
}

// The values of an array.
#[cycle(tree)]
fn values_of(
    alloc: Global,
    array: RawArray<'_>,
    levels: u32,
    seed: KeySeed,
) -> Result<Vec<Bson>, Error>
    ensures { Gives (λ v. trees_of v.items) result (trees_at levels (array_bytes array.entry)) }
{
    if levels == 0 {
        return Err(Error::TooDeep);
    }
    let mut values = Vec::new(alloc);
    for element in array.as_doc().iter_elements() {
        let element = element?;
        push(
            &mut values,
            value_of(alloc, element.value()?, levels - 1, seed)?,
        )?;
    }
    Ok(values)
}

// One more value at the end.
fn push(values: &mut Vec<Bson>, value: Bson) -> Result<(), AllocError>
    ensures { OnOk result (trees_of values.new.items ≡ and_last (trees_of values.old.items) (tree_of value)) }
{
    values.push(value)?;
    Ok(())
}

// A value, with so many levels of documents and arrays left.
#[cycle(tree)]
#[tactic(auto, using(bson_base::proofs::Rows::row_items, bson_base::proofs::Rows::row_pairs))]
fn value_of(alloc: Global, value: RawBsonRef<'_>, levels: u32, seed: KeySeed) -> Result<Bson, Error>
    ensures { Gives tree_of result (tree_at levels (raw_value value.entry)) }
{
    Ok(match value {
        RawBsonRef::Double(number) => Bson::Double(number),
        RawBsonRef::String(text) => Bson::String(String::from_str(alloc, text)?),
        RawBsonRef::Array(array) => Bson::Array(values_of(alloc, array, levels, seed)?),
        RawBsonRef::Document(document) => Bson::Document(document_of(
            alloc, document, levels, seed,
        )?),
        RawBsonRef::Boolean(truth) => Bson::Boolean(truth),
        RawBsonRef::Null => Bson::Null,
        RawBsonRef::RegularExpression { pattern, options } => {
            Bson::RegularExpression(regex(alloc, pattern, options)?)
        }
        RawBsonRef::JavaScriptCode(code) => Bson::JavaScriptCode(String::from_str(alloc, code)?),
        RawBsonRef::JavaScriptCodeWithScope { code, scope } => {
            let scope = document_of(alloc, scope, levels, seed)?;
            let code = String::from_str(alloc, code)?;
            Bson::JavaScriptCodeWithScope(JavaScriptCodeWithScope { code, scope })
        }
        RawBsonRef::Int32(number) => Bson::Int32(number),
        RawBsonRef::Int64(number) => Bson::Int64(number),
        RawBsonRef::Timestamp(timestamp) => Bson::Timestamp(timestamp),
        RawBsonRef::Binary { subtype, bytes } => {
            let bytes = Vec::from_slice(alloc, bytes)?;
            Bson::Binary(Binary::from_parts(subtype, bytes))
        }
        RawBsonRef::ObjectId(id) => Bson::ObjectId(id),
        RawBsonRef::DateTime(time) => Bson::DateTime(time),
        RawBsonRef::Symbol(text) => Bson::Symbol(String::from_str(alloc, text)?),
        RawBsonRef::Decimal128(number) => Bson::Decimal128(number),
        RawBsonRef::Undefined => Bson::Undefined,
        RawBsonRef::MaxKey => Bson::MaxKey,
        RawBsonRef::MinKey => Bson::MinKey,
        RawBsonRef::DbPointer { namespace, id } => {
            let namespace = String::from_str(alloc, namespace)?;
            Bson::DbPointer(DbPointer { namespace, id })
        }
    })
}

// A regular expression, with its options in order.
fn regex(alloc: Global, pattern: &str, options: &str) -> Result<Regex, AllocError>
    ensures pattern { IfOk result (λ r. r.pattern ≡ pattern.now) }
    ensures options { IfOk result (λ r. r.options ≡ sorted options.now) }
{
    let pattern = String::from_str(alloc, pattern)?;
    let options = String::from_str(alloc, options)?;
    Regex::new(alloc, pattern, options)
}
