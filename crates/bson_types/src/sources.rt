ghost use Rattle.std.specs.Prelude.{◌≡◌, ◌≤◌, OnOk};
ghost use Rattle.bson_laws.specs.Reads.{reads_document};
ghost use Rattle.bson_de_raw.specs.ReadsLossy.{reads_lossy};
ghost use Rattle.bson_types.specs.FromSource.{ReadsTyped};

use bson_de_source::{from_reader_at, from_reader_utf8_lossy_at};
use bson_io::Source;
use bson_traits::{Deserialize, shape_of};
use bson_values::de;
use std::alloc::Global;

/// The value of a type that the first document of what a source has left is: what the type makes of the datum that is read at its shape.
///
/// # Errors
///
/// - `NotFitting`, with nothing taken from the source, exactly where the type has no shape, since it would have more than 512 levels.
/// - Those of [`from_reader_at`] at the shape of the type.
/// - What the type refuses in the datum.
/// - `NoMemory`.
#[tactic(auto, using(crate::proofs::FromSources::no_shape))]
pub fn from_reader<'x, S: Source, T: Deserialize<'x>>(
    alloc: Global,
    source: &mut S,
) -> de::Result<T>
    ensures value { ReadsTyped T.contents T.form T.taken reads_document (S.left source.old) (S.left source.new) (S.faults source.old) (S.faults source.new) result }
    ensures later { S.faults source.old ≤ S.faults source.new }
    // No call on the source failed, where there is a value.
    ensures kept { OnOk result (S.faults source.new ≡ S.faults source.old) }
{
    let shape = shape_of::<T>(alloc)?;
    let datum = from_reader_at(alloc, &shape, source)?;
    T::from_datum(alloc, datum)
}

/// The same, where ill-formed texts are mended, as [`from_slice_utf8_lossy_at`](bson_de_raw::from_slice_utf8_lossy_at) does.
///
/// # Errors
///
/// Those of [`from_reader`], by that call.
#[tactic(auto, using(crate::proofs::FromSources::no_shape))]
pub fn from_reader_utf8_lossy<'x, S: Source, T: Deserialize<'x>>(
    alloc: Global,
    source: &mut S,
) -> de::Result<T>
    ensures value { ReadsTyped T.contents T.form T.taken reads_lossy (S.left source.old) (S.left source.new) (S.faults source.old) (S.faults source.new) result }
    ensures later { S.faults source.old ≤ S.faults source.new }
    // No call on the source failed, where there is a value.
    ensures kept { OnOk result (S.faults source.new ≡ S.faults source.old) }
{
    let shape = shape_of::<T>(alloc)?;
    let datum = from_reader_utf8_lossy_at(alloc, &shape, source)?;
    T::from_datum(alloc, datum)
}
