ghost use Rattle.std.specs.Prelude.{true};
ghost use Rattle.bson_base.specs.BsonView.{tree_of, pairs_of};
ghost use Rattle.bson_base.specs.Tree as trees;
ghost use Rattle.bson_values.specs.Returned.{Reads};
ghost use Rattle.bson_datum.specs.View.{view};
ghost use Rattle.bson_laws.specs.Reads.{answered};
ghost use Rattle.bson_laws.specs.ReadsFrom.{answered_bare, reads_tree_value};
ghost use Rattle.bson_de_tree.specs.Options.{is_readable};
ghost use Rattle.bson_traits.specs.ShapeOf.{read_typed};

use bson_base::{Bson, Document};
use bson_datum::Datum;
use bson_de_tree::{DeserializerOptions, from_bson_at, from_bson_with_options_at};
use bson_shape::Shape;
use bson_traits::{Deserialize, shape_of};
use bson_values::de;
use std::alloc::Global;

/// The value of a type that a BSON value is: what the type makes of the datum that is read at its shape, for a reader who is human.
///
/// # Errors
///
/// - `NotFitting`, before the BSON value is looked at, exactly where the type has no shape, since it would have more than 512 levels.
/// - Those of [`from_bson_at`] at the shape of the type.
/// - What the type refuses in the datum.
/// - `NoMemory`.
pub fn from_bson<'x, T: Deserialize<'x>>(alloc: Global, bson: Bson) -> de::Result<T>
    ensures value { Reads T.contents result
        (read_typed T.form T.taken (λ s. answered (reads_tree_value true s (tree_of bson)))) }
{
    let shape = shape_of::<T>(alloc)?;
    let datum = read(alloc, &shape, bson)?;
    T::from_datum(alloc, datum)
}

/// The value of a type that a BSON value is, as [`from_bson`] reads it, with these options.
///
/// # Errors
///
/// Those of [`from_bson`], those of the reader without their paths.
pub fn from_bson_with_options<'x, T: Deserialize<'x>>(
    alloc: Global,
    bson: Bson,
    options: DeserializerOptions,
) -> de::Result<T>
    ensures value { Reads T.contents result
        (read_typed T.form T.taken (λ s. answered_bare (reads_tree_value (is_readable options.human_readable) s (tree_of bson)))) }
{
    let shape = shape_of::<T>(alloc)?;
    let datum = read_with(alloc, &shape, bson, options)?;
    T::from_datum(alloc, datum)
}

/// The value of a type that a document is, as [`from_bson`] reads it.
///
/// # Errors
///
/// Those of [`from_bson`].
#[tactic(auto, using(bson_base::proofs::Rows::row_items, bson_base::proofs::Rows::row_pairs))]
pub fn from_document<'x, T: Deserialize<'x>>(alloc: Global, doc: Document) -> de::Result<T>
    ensures value { Reads T.contents result
        (read_typed T.form T.taken (λ s. answered (reads_tree_value true s (trees.document (pairs_of doc))))) }
{
    from_bson(alloc, Bson::Document(doc))
}

/// The value of a type that a document is, as [`from_bson`] reads it, with these options.
///
/// # Errors
///
/// Those of [`from_bson_with_options`].
#[tactic(auto, using(bson_base::proofs::Rows::row_items, bson_base::proofs::Rows::row_pairs))]
pub fn from_document_with_options<'x, T: Deserialize<'x>>(
    alloc: Global,
    doc: Document,
    options: DeserializerOptions,
) -> de::Result<T>
    ensures value { Reads T.contents result
        (read_typed T.form T.taken
        (λ s. answered_bare (reads_tree_value (is_readable options.human_readable) s (trees.document (pairs_of doc))))) }
{
    from_bson_with_options(alloc, Bson::Document(doc), options)
}

// `from_bson_at`, by its value alone.
fn read<'x>(alloc: Global, shape: &Shape, bson: Bson) -> de::Result<Datum<'x>>
    ensures value { Reads view result (answered (reads_tree_value true shape.now (tree_of bson))) }
{
    from_bson_at(alloc, shape, bson)
}

// `from_bson_with_options_at`, by its value alone.
fn read_with<'x>(
    alloc: Global,
    shape: &Shape,
    bson: Bson,
    options: DeserializerOptions,
) -> de::Result<Datum<'x>>
    ensures value { Reads view result
        (answered_bare (reads_tree_value (is_readable options.human_readable) shape.now (tree_of bson))) }
{
    from_bson_with_options_at(alloc, shape, bson, options)
}
