ghost use Rattle.std.specs.Prelude.{true, unwrap_or};
ghost use Rattle.bson_base.specs.BsonView.{tree_of, pairs_of};
ghost use Rattle.bson_kinds.specs.Outcome.{◌>>=◌ as and_then};
ghost use Rattle.bson_values.specs.Returned.{Writes};
ghost use Rattle.bson_tree_laws.specs.TreeSpell.{tree_whole};
ghost use Rattle.bson_ser_tree.specs.Answers.{with_paths, without_paths, document_whole};

use bson_base::{Bson, Document};
use bson_ser_tree::{
    SerializerOptions, to_bson_at, to_bson_with_options_at, to_document_at,
    to_document_with_options_at,
};
use bson_traits::Serialize;
use bson_values::ser;
use std::alloc::Global;

/// The BSON value that a value is: that of its datum, in its readable form.
///
/// # Errors
///
/// - What the type refuses.
/// - Those of [`to_bson_at`] for the datum of the value.
/// - `NoMemory`.
#[tactic(auto, using(crate::proofs::Made::fails_then, crate::proofs::Made::made_then))]
pub fn to_bson<T: Serialize>(alloc: Global, value: &T) -> ser::Result<Bson>
    ensures tree { Writes tree_of result (and_then (T.written value.now) (λ v. with_paths (tree_whole true v))) }
{
    let datum = value.to_datum(alloc)?;
    let made = to_bson_at(alloc, &datum);
    drop(datum);
    made
}

/// The BSON value that a value is, as [`to_bson`] makes it, with these options.
///
/// # Errors
///
/// Those of [`to_bson`], those of the writer without their paths.
#[tactic(auto, using(crate::proofs::Made::fails_then, crate::proofs::Made::made_then))]
pub fn to_bson_with_options<T: Serialize>(
    alloc: Global,
    value: &T,
    options: SerializerOptions,
) -> ser::Result<Bson>
    ensures tree { Writes tree_of result
        (and_then (T.written value.now) (λ v. without_paths (tree_whole (unwrap_or options.human_readable true) v))) }
{
    let datum = value.to_datum(alloc)?;
    let made = to_bson_with_options_at(alloc, &datum, options);
    drop(datum);
    made
}

/// The document that a value is, as [`to_bson`] makes it.
///
/// # Errors
///
/// Those of [`to_bson`], those of the writer without their paths; and `SerializationError` with `NotDocument` exactly where the BSON value is of another kind.
#[tactic(auto, using(crate::proofs::Made::fails_then, crate::proofs::Made::made_then))]
pub fn to_document<T: Serialize>(alloc: Global, value: &T) -> ser::Result<Document>
    ensures pairs { Writes pairs_of result (and_then (T.written value.now) (λ v. without_paths (document_whole true v))) }
{
    let datum = value.to_datum(alloc)?;
    let made = to_document_at(alloc, &datum);
    drop(datum);
    made
}

/// The document that a value is, as [`to_bson`] makes it, with these options.
///
/// # Errors
///
/// Those of [`to_document`].
#[tactic(auto, using(crate::proofs::Made::fails_then, crate::proofs::Made::made_then))]
pub fn to_document_with_options<T: Serialize>(
    alloc: Global,
    value: &T,
    options: SerializerOptions,
) -> ser::Result<Document>
    ensures pairs { Writes pairs_of result
        (and_then (T.written value.now) (λ v. without_paths (document_whole (unwrap_or options.human_readable true) v))) }
{
    let datum = value.to_datum(alloc)?;
    let made = to_document_with_options_at(alloc, &datum, options);
    drop(datum);
    made
}
