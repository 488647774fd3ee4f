ghost use Rattle.std.specs.Prelude.{◌≡◌, ◌≤◌, true, is_some, Some, IfOk, IsTrue};
ghost use Rattle.bson_base.specs.BsonView.{tree_of, pairs_of};
ghost use Rattle.bson_base.specs.Sound.{IsClean, max_levels};
ghost use Rattle.bson_base.specs.Tree as trees;
ghost use Rattle.bson_base.specs.Tree.{Tree, depth};
ghost use Rattle.bson_shape.specs.Form.{no_fields};
ghost use Rattle.bson_datum.specs.Borrowed.{IsOwned};
ghost use Rattle.bson_values.specs.ErrorView.{read_failure, read_fault};
ghost use Rattle.bson_values.specs.Stop.{stop_view};
ghost use Rattle.bson_values.specs.Value.{Value};
ghost use Rattle.bson_values.specs.Returned.{Reads};
ghost use Rattle.bson_datum.specs.View.{view};
ghost use Rattle.bson_laws.specs.Judged as laws;
ghost use Rattle.bson_laws.specs.Means.{means, norm};
ghost use Rattle.bson_laws.specs.Plain.{IsPlain};
ghost use Rattle.bson_laws.specs.Reads.{answered};
ghost use Rattle.bson_laws.specs.ReadsFrom.{answered_bare, reads_tree_value};
ghost use Rattle.bson_laws.specs.Recursive.{FitsIn};
ghost use Rattle.bson_laws.specs.SuitsTrees.{SuitsTrees};
ghost use Rattle.bson_laws.specs.Views.{views};
ghost use Rattle.bson_met.specs.Gives.{Reaches};
ghost use Rattle.bson_moved.specs.Simple as moved;
ghost use Rattle.bson_de_raw.specs.Gives.{GivesValue};
ghost use Rattle.bson_de_tree.specs.Bare.{IsBare};
ghost use Rattle.bson_de_tree.specs.Options.{is_readable};

use crate::options::DeserializerOptions;
use bson_base::{Bson, Document, MAX_NESTING_LEVEL};
use bson_datum::Datum;
use bson_de_raw::read_for;
use bson_laws::{Origin, Reader};
use bson_met::{Met, Reading};
use bson_moved::{has_view, is_clean, is_simple, take};
use bson_shape::Shape;
use bson_values::{Refused, Stop, de};
use std::alloc::Global;

/// The value that a value in memory is at a shape, for a reader who is human. All of it is owned.
///
/// What each shape takes is what `from_slice_at` says of it. From a value in memory these differ:
///
/// - `str` and `bytes` take nothing, since nothing can be borrowed. A mark (`~s`) makes nothing of it, since its texts are texts.
/// - An enum takes a document of exactly one key. Where the key names a variant without contents, the value under it is read at `bson` and dropped. The contents of
///   a tuple variant are an array that is not empty, and those of a struct variant a document.
/// - `rawdoc` and `rawarray` take a document and an array, and `rawbson` every value: a document, an array and a scope are the bytes that `raw_from_bson` makes, with
///   levels that are counted from the value. A document of which it makes another value is that value at `rawbson`.
///
/// # Errors
///
/// `WithPath` with the path of the value, around `DeserializationError` with the cause, or around `EndOfStream`; or `NoMemory`. The causes are those of `from_slice_at` but for
/// `Raw` and `ContentsWanted`, and these:
///
/// - `NotBorrowed`: any value at `str` or `bytes`, and any key of a map at `str`.
/// - `EmptyEnum`: an empty document at an enum. `ExtraKey`: a second key in a document at an enum.
/// - `InvalidType`: of Null for an empty array as the contents of a tuple variant.
/// - `ZeroByte`, `BinaryTooLong`, `TooLong`, `BadBody`, `UnknownField`: at `rawdoc`, `rawarray` and `rawbson` those of `raw_from_bson`.
///
/// `EndOfStream`: a text at an enum that is the name of a variant with contents.
pub fn from_bson_at<'x>(alloc: Global, shape: &Shape, bson: Bson) -> de::Result<Datum<'x>>
    ensures exact { Reads view result (answered (reads_tree_value true shape.now (tree_of bson))) }
    ensures owned { IfOk result IsOwned }
    // The tree that a value of a plain shape means is read back as the normal form of the value.
    ensures read_back { (v : Value) (t : Tree) → IsPlain shape.now → SuitsTrees shape.now → FitsIn no_fields v shape.now → means v ≡ Some t → IsClean t → depth t ≤ max_levels
        → tree_of bson ≡ t → GivesValue (norm v) result }
{
    shape.known();
    with_path(alloc, read_tree(alloc, true, shape, bson))
}

/// The same by the options, whose errors carry no path.
///
/// # Errors
///
/// Those of [`from_bson_at`], without `WithPath`.
pub fn from_bson_with_options_at<'x>(
    alloc: Global,
    shape: &Shape,
    bson: Bson,
    options: DeserializerOptions,
) -> de::Result<Datum<'x>>
    ensures exact { Reads view result
        (answered_bare (reads_tree_value (is_readable options.human_readable) shape.now (tree_of bson))) }
    ensures owned { IfOk result IsOwned }
{
    without_path(read_tree(alloc, options.is_readable(), shape, bson))
}

/// [`from_bson_at`] of a document.
///
/// # Errors
///
/// Those of [`from_bson_at`].
#[tactic(auto, using(bson_base::proofs::Rows::row_items, bson_base::proofs::Rows::row_pairs))]
pub fn from_document_at<'x>(alloc: Global, shape: &Shape, doc: Document) -> de::Result<Datum<'x>>
    ensures exact { Reads view result (answered (reads_tree_value true shape.now (trees.document (pairs_of doc)))) }
    ensures owned { IfOk result IsOwned }
{
    from_bson_at(alloc, shape, Bson::Document(doc))
}

/// [`from_bson_with_options_at`] of a document.
///
/// # Errors
///
/// Those of [`from_bson_with_options_at`].
#[tactic(auto, using(bson_base::proofs::Rows::row_items, bson_base::proofs::Rows::row_pairs))]
pub fn from_document_with_options_at<'x>(
    alloc: Global,
    shape: &Shape,
    doc: Document,
    options: DeserializerOptions,
) -> de::Result<Datum<'x>>
    ensures exact { Reads view result
        (answered_bare (reads_tree_value (is_readable options.human_readable) shape.now (trees.document (pairs_of doc)))) }
    ensures owned { IfOk result IsOwned }
{
    from_bson_with_options_at(alloc, shape, Bson::Document(doc), options)
}

// The value that a value in memory is at a shape. Its texts are moved where it can be taken apart, and else copied.
fn read_tree<'x>(alloc: Global, readable: bool, shape: &Shape, tree: Bson) -> Reading<Datum<'x>>
    ensures exact { Reaches view result (reads_tree_value readable shape.now (tree_of tree)) }
    ensures owned { IfOk result IsOwned }
{
    shape.known();
    if can_take(shape, &tree) {
        return Ok(take(alloc, shape, tree)?);
    }
    read(alloc, readable, shape, &tree)
}

// Whether a tree can be taken apart: the shape is simple, and the tree is clean and has a value there. Where it is not so, nothing is said.
fn can_take(shape: &Shape, tree: &Bson) -> bool
    ensures simple { IsTrue result → moved.is_simple shape.now ≡ true }
    ensures clean { IsTrue result → IsClean (tree_of tree.now) }
    ensures nests { IsTrue result → depth (tree_of tree.now) ≤ max_levels }
    ensures view { IsTrue result → is_some (views shape.now (tree_of tree.now)) ≡ true }
{
    is_simple(shape) && is_clean(tree, MAX_NESTING_LEVEL) && has_view(shape, tree)
}

// The value that a value in memory is at a shape, by the reader of all shapes. It is read with the lifetime of that value, and then owned.
fn read<'x>(alloc: Global, readable: bool, shape: &Shape, value: &Bson) -> Reading<Datum<'x>>
    ensures exact { Reaches view result (reads_tree_value readable shape.now (tree_of value.now)) }
    ensures owned { IfOk result IsOwned }
{
    let value = Met::of_tree(MAX_NESTING_LEVEL, value);
    let datum = read_for(alloc, &Reader::new(readable, Origin::Tree), shape, &value)?;
    Ok(datum.into_owned(alloc)?)
}

// What was read; a refusal with its path.
fn with_path<'x>(alloc: Global, reading: Reading<Datum<'x>>) -> de::Result<Datum<'x>>
    ensures exact { (expected : laws.Reading Value) → Reaches view reading.entry expected → Reads view result (answered expected) }
    ensures owned { IfOk reading.entry IsOwned → IfOk result IsOwned }
{
    match reading {
        Ok(value) => Ok(value),
        Err(stop) => Err(de::Error::from_stop(alloc, stop)),
    }
}

// What was read; a refusal without its path.
fn without_path<'x>(reading: Reading<Datum<'x>>) -> de::Result<Datum<'x>>
    ensures exact { (expected : laws.Reading Value) → Reaches view reading.entry expected → Reads view result (answered_bare expected) }
    ensures owned { IfOk reading.entry IsOwned → IfOk result IsOwned }
{
    match reading {
        Ok(value) => Ok(value),
        Err(stop) => Err(bare(stop)),
    }
}

// A refusal without its path; or memory ran out.
fn bare(stop: Stop<de::Fault>) -> de::Error
    ensures { IsBare (stop_view read_fault stop) (read_failure result) }
{
    let Stop::Refused(refused) = stop else {
        return de::Error::NoMemory;
    };
    let Refused { fault, .. } = Box::into_inner(refused);
    de::Error::from_fault(fault)
}
