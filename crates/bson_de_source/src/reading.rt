ghost use Rattle.std.specs.Prelude.{◌≡◌, ◌≤◌, IfOk, OnOk};
ghost use Rattle.bson_values.specs.Returned.{Reads};
ghost use Rattle.bson_datum.specs.Borrowed.{IsOwned};
ghost use Rattle.bson_datum.specs.View.{view};
ghost use Rattle.bson_de_raw.specs.ReadsLossy.{reads_lossy};
ghost use Rattle.bson_laws.specs.Reads.{reads_document};
ghost use Rattle.bson_source.specs.FromSource.{ReadsOne, read_first};

use bson_datum::Datum;
use bson_de_raw::{from_slice_at, from_slice_utf8_lossy_at};
use bson_io::Source;
use bson_shape::Shape;
use bson_source::take_document;
use bson_values::de;
use std::alloc::Global;

/// The value that the first document of what a source has left is at a shape. All of it is owned.
///
/// Memory grows with the bytes that came, and not with the length that the document announces. Nothing past that length is taken.
///
/// # Errors
///
/// - Those of [`take_document`].
/// - Those of [`from_slice_at`] over the bytes that came; where the source ended before the length that was announced, they have another length than they
///   announce.
#[tactic(auto, using(crate::proofs::Then::not_taken, crate::proofs::Then::read_taken))]
pub fn from_reader_at<'x, S: Source>(
    alloc: Global,
    shape: &Shape,
    source: &mut S,
) -> de::Result<Datum<'x>>
    ensures read { ReadsOne view (read_first (reads_document shape.now)) (S.left source.old) (S.left source.new) (S.faults source.old) (S.faults source.new) result }
    ensures owned { IfOk result IsOwned }
    ensures later { S.faults source.old ≤ S.faults source.new }
    // No call on the source failed, where there is a value.
    ensures kept { OnOk result (S.faults source.new ≡ S.faults source.old) }
{
    let bytes = take_document(alloc, source)?;
    owned_from(alloc, shape, &bytes)
}

/// The same, where ill-formed texts are mended, as [`from_slice_utf8_lossy_at`] does.
///
/// # Errors
///
/// Those of [`from_reader_at`], by that call.
#[tactic(auto, using(crate::proofs::Then::not_taken, crate::proofs::Then::read_taken))]
pub fn from_reader_utf8_lossy_at<'x, S: Source>(
    alloc: Global,
    shape: &Shape,
    source: &mut S,
) -> de::Result<Datum<'x>>
    ensures read { ReadsOne view (read_first (reads_lossy shape.now)) (S.left source.old) (S.left source.new) (S.faults source.old) (S.faults source.new) result }
    ensures owned { IfOk result IsOwned }
    ensures later { S.faults source.old ≤ S.faults source.new }
    // No call on the source failed, where there is a value.
    ensures kept { OnOk result (S.faults source.new ≡ S.faults source.old) }
{
    let bytes = take_document(alloc, source)?;
    mended_from(alloc, shape, &bytes)
}

// The value that bytes are at a shape, with nothing borrowed.
fn owned_from<'x>(alloc: Global, shape: &Shape, bytes: &[u8]) -> de::Result<Datum<'x>>
    ensures value { Reads view result (reads_document shape.now bytes.now) }
    ensures owned { IfOk result IsOwned }
{
    let datum = read(alloc, shape, bytes)?;
    Ok(datum.into_owned(alloc)?)
}

// The same, where ill-formed texts are mended.
fn mended_from<'x>(alloc: Global, shape: &Shape, bytes: &[u8]) -> de::Result<Datum<'x>>
    ensures value { Reads view result (reads_lossy shape.now bytes.now) }
    ensures owned { IfOk result IsOwned }
{
    let datum = read_mended(alloc, shape, bytes)?;
    Ok(datum.into_owned(alloc)?)
}

// `from_slice_at`, by its value alone.
#[tactic(auto, using(bson_de_raw::proofs::ReadBack::gives_document))]
fn read<'de>(alloc: Global, shape: &Shape, bytes: &'de [u8]) -> de::Result<Datum<'de>>
    ensures value { Reads view result (reads_document shape.now bytes.now) }
{
    from_slice_at(alloc, shape, bytes)
}

// `from_slice_utf8_lossy_at`, by its value alone.
#[tactic(auto, using(bson_de_raw::proofs::ReadBack::gives_lossy))]
fn read_mended<'de>(alloc: Global, shape: &Shape, bytes: &'de [u8]) -> de::Result<Datum<'de>>
    ensures value { Reads view result (reads_lossy shape.now bytes.now) }
{
    from_slice_utf8_lossy_at(alloc, shape, bytes)
}
