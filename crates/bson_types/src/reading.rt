ghost use Rattle.bson_datum.specs.View.{view};
ghost use Rattle.bson_laws.specs.Reads.{reads_document};
ghost use Rattle.bson_de_raw.specs.ReadsLossy.{reads_lossy};
ghost use Rattle.bson_traits.specs.ShapeOf.{read_typed};
ghost use Rattle.bson_values.specs.Returned.{Reads};

use bson_datum::Datum;
use bson_de_raw::{from_slice_at, from_slice_utf8_lossy_at};
use bson_shape::Shape;
use bson_traits::{Deserialize, shape_of};
use bson_values::de;
use std::alloc::Global;

/// The value of a type that the bytes of a document are: what the type makes of the datum that is read at its shape.
///
/// # Errors
///
/// - `NotFitting`, before the bytes are looked at, exactly where the type has no shape, since it would have more than 512 levels.
/// - Those of [`from_slice_at`] at the shape of the type.
/// - What the type refuses in the datum.
/// - `NoMemory`.
pub fn from_slice<'de, T: Deserialize<'de>>(alloc: Global, bytes: &'de [u8]) -> de::Result<T>
    ensures value { Reads T.contents result (read_typed T.form T.taken (λ s. reads_document s bytes.now)) }
{
    let shape = shape_of::<T>(alloc)?;
    let datum = read(alloc, &shape, bytes)?;
    T::from_datum(alloc, datum)
}

/// The same, where ill-formed texts are mended, as [`from_slice_utf8_lossy_at`] does.
///
/// # Errors
///
/// Those of [`from_slice`], by that call.
pub fn from_slice_utf8_lossy<'de, T: Deserialize<'de>>(
    alloc: Global,
    bytes: &'de [u8],
) -> de::Result<T>
    ensures value { Reads T.contents result (read_typed T.form T.taken (λ s. reads_lossy s bytes.now)) }
{
    let shape = shape_of::<T>(alloc)?;
    let datum = read_mended(alloc, &shape, bytes)?;
    T::from_datum(alloc, datum)
}

// `from_slice_at`, by its value alone.
fn read<'de>(alloc: Global, shape: &Shape, bytes: &'de [u8]) -> de::Result<Datum<'de>>
    ensures value { Reads view result (reads_document shape.now bytes.now) }
{
    from_slice_at(alloc, shape, bytes)
}

// `from_slice_utf8_lossy_at`, by its value alone.
fn read_mended<'de>(alloc: Global, shape: &Shape, bytes: &'de [u8]) -> de::Result<Datum<'de>>
    ensures value { Reads view result (reads_lossy shape.now bytes.now) }
{
    from_slice_utf8_lossy_at(alloc, shape, bytes)
}
