ghost use Rattle.std.specs.Prelude.{◌≡◌, Some, IfOk};
ghost use Rattle.bson_base.specs.Sound.{IsSound};
ghost use Rattle.bson_base.specs.Tree.{Tree, enc};
ghost use Rattle.bson_values.specs.Value.{Value};
ghost use Rattle.bson_values.specs.Returned.{Reads};
ghost use Rattle.bson_datum.specs.View.{view as value_of};
ghost use Rattle.bson_laws.specs.Recursive.{view};
ghost use Rattle.bson_laws.specs.Means.{means};
ghost use Rattle.bson_laws.specs.Plain.{OwnsTexts, IsPlain};
ghost use Rattle.bson_laws.specs.Reads.{reads_document};
ghost use Rattle.bson_laws.specs.Settled.{IsSettled};
ghost use Rattle.bson_laws.specs.Writable.{IsWritable};
ghost use Rattle.bson_shape.specs.Form.{lossy, no_fields};
ghost use Rattle.bson_de_raw.specs.ReadsLossy.{reads_lossy};
ghost use Rattle.bson_recasting.specs.Recasting.{lossy_recast_of, IsAppended, GivesBytes, IsForSize};
ghost use Rattle.bson_tree_recast.specs.Recast.{recast_of, recast_read, writes, IfUnwritten, IsForNoNumber, IsRecast};

use bson_datum::Datum;
use bson_de_raw::{from_slice_at, from_slice_utf8_lossy_at};
use bson_io::{Out, Steps, Tally};
use bson_one_pass::{recast_at_once, recast_at_once_utf8_lossy};
use bson_ser_stream::to_buf;
use bson_shape::Shape;
use bson_tree_recast::RecastError;
use bson_values::{de, ser};
use std::alloc::Global;

/// Reads the bytes of a document at a shape, and gives the bytes of what was read.
///
/// # Errors
///
/// `Read` exactly where `from_slice_at` refuses the bytes at the shape, `Write` exactly where it reads a value that
/// `to_vec_at` refuses, each with that call's error; `NoMemory` where memory ran out.
///
/// A recast of the bytes that it gives, at the same shape, gives the same bytes, or memory runs out: a migration may be run again without harm.
/// This holds at every shape that does not depend on whether the reader is human (`IsSettled`), and for every byte string.
///
/// What was read is refused by the writer for its size, its nesting or the size of a binary alone, where no field of the
/// shape has a zero character in its name, the keys of its maps are `str`, `string` or unit variants, none of its leaves is
/// `regex`, `codews`, `bson` or `document`, and the document itself is read neither at `ignored` nor at an extended leaf: a
/// number may take more bytes when it is written than it took before, a text that is read as a byte string, and the base64
/// of a binary, are written as a binary, which may have no more than 16777216 bytes, and the document that a value is opened
/// to takes a level when it is written. At every shape it is never refused as `UnsignedIntegerExceededRange`.
pub fn recast(alloc: Global, shape: &Shape, bytes: &[u8]) -> Result<Vec<u8>, RecastError>
    // What is read at the shape is written.
    ensures exact { IsRecast (recast_of shape.now bytes.now) result }
    // A sound document, whose value at a plain shape means a sound document, becomes that document.
    ensures migrates { (t u : Tree) (d : Value) → IsPlain shape.now → IsSound t → view no_fields shape.now t ≡ Some d → means d ≡ Some u → IsSound u
        → bytes.now ≡ enc t → GivesBytes (enc u) result }
    // What was written at a shape that does not depend on whether the reader is human is written as the same bytes when it is recast at the shape again.
    ensures again { IsSettled shape.now → IfOk result (λ v. recast_of shape.now v.items ≡ writes v.items) }
    // What was read at a shape whose keys can be written, which reads no regular expression, and which keeps the document, is refused by the
    // writer for its size, its nesting or the size of a binary alone.
    ensures too_large { IsWritable shape.now → IfUnwritten (IsForSize shape.now bytes.now) result }
    // At no shape is what was read refused for a number that no Int64 holds.
    ensures numbers { IfUnwritten IsForNoNumber result }
{
    shape.known();
    through(alloc, shape, bytes)
}

/// Reads the bytes of a document at a shape, where its texts are mended, and gives the bytes of what was read.
///
/// It is as fast as [`recast`] where every text is UTF-8, at a shape without `str` and `bytes`.
///
/// # Errors
///
/// `Read` exactly where `from_slice_utf8_lossy_at` refuses the bytes at the shape, `Write` exactly where it reads a value that `to_vec_at` refuses, each
/// with that call's error; `NoMemory` where memory ran out.
///
/// A recast of the bytes that it gives, at the same shape, gives the same bytes, or memory runs out, where the shape does not depend on whether the reader is
/// human (`IsSettled`).
///
/// What was read is refused by the writer for its size, its nesting or the size of a binary alone, where [`recast`] says so of the shape. At every shape it is
/// never refused as `UnsignedIntegerExceededRange`.
pub fn recast_utf8_lossy(alloc: Global, shape: &Shape, bytes: &[u8]) -> Result<Vec<u8>, RecastError>
    // What is read at the shape, where texts are mended, is written.
    ensures exact { IsRecast (lossy_recast_of shape.now bytes.now) result }
    // A sound document, whose value at a plain shape without `str` means a sound document, becomes that document.
    ensures migrates { (t u : Tree) (d : Value) → OwnsTexts shape.now → IsPlain shape.now → IsSound t → view no_fields shape.now t ≡ Some d → means d ≡ Some u
        → IsSound u → bytes.now ≡ enc t → GivesBytes (enc u) result }
    // What was written at a shape that does not depend on whether the reader is human is written as the same bytes when it is recast at the shape again.
    ensures again { IsSettled shape.now → IfOk result (λ v. lossy_recast_of shape.now v.items ≡ writes v.items) }
    // What was read at a shape whose keys can be written, which reads no regular expression, and which keeps the document, is refused by the
    // writer for its size, its nesting or the size of a binary alone.
    ensures too_large { IsWritable shape.now → IfUnwritten (IsForSize (lossy shape.now) bytes.now) result }
    // At no shape is what was read refused for a number that no Int64 holds.
    ensures numbers { IfUnwritten IsForNoNumber result }
{
    shape.known();
    through_lossy(alloc, shape, bytes)
}

// The value of the document, without its marks.
fn read<'de>(alloc: Global, shape: &Shape, bytes: &'de [u8]) -> de::Result<Datum<'de>>
    ensures exact { Reads value_of result (reads_document shape.now bytes.now) }
{
    from_slice_at(alloc, shape, bytes)
}

// The same where texts are mended.
fn read_lossy<'de>(alloc: Global, shape: &Shape, bytes: &'de [u8]) -> de::Result<Datum<'de>>
    ensures exact { Reads value_of result (reads_lossy shape.now bytes.now) }
{
    from_slice_utf8_lossy_at(alloc, shape, bytes)
}

// Appends the bytes of what was read.
fn write(datum: &Datum<'_>, out: &mut Out) -> Result<(), RecastError>
    ensures exact { IsAppended (recast_read (Ok (value_of datum.now))) out.old.bytes out.new.bytes result }
{
    let mut steps = Steps::<Tally>::new();
    to_buf(datum, out, &mut steps)?;
    Ok(())
}

/// Reads the bytes of a document at a shape, and appends the bytes of what was read to an output buffer.
///
/// # Errors
///
/// Those of [`recast`]. After any error the buffer holds the bytes that it had.
pub fn recast_to_buf(
    alloc: Global,
    shape: &Shape,
    bytes: &[u8],
    out: &mut Out,
) -> Result<(), RecastError>
    ensures exact { IsAppended (recast_of shape.now bytes.now) out.old.bytes out.new.bytes result }
{
    match recast_at_once(alloc, shape, bytes) {
        Some(made) => append(out, &made),
        None => recast_in_two(alloc, shape, bytes, out),
    }
}

// Appends what was made in one pass.
fn append(out: &mut Out, made: &[u8]) -> Result<(), RecastError>
    ensures { IsAppended (writes made.now) out.old.bytes out.new.bytes result }
{
    let mut steps = Steps::<Tally>::new();
    out.push_all(made, &mut steps)?;
    Ok(())
}

// The same in two steps: the value is read, and then it is written.
fn recast_in_two(
    alloc: Global,
    shape: &Shape,
    bytes: &[u8],
    out: &mut Out,
) -> Result<(), RecastError>
    ensures exact { IsAppended (recast_of shape.now bytes.now) out.old.bytes out.new.bytes result }
{
    let datum = read(alloc, shape, bytes)?;
    let written = write(&datum, out);
    drop(datum);
    written
}

// The same where texts are mended.
fn recast_lossy_in_two(
    alloc: Global,
    shape: &Shape,
    bytes: &[u8],
    out: &mut Out,
) -> Result<(), RecastError>
    ensures exact { IsAppended (lossy_recast_of shape.now bytes.now) out.old.bytes out.new.bytes result }
{
    let datum = read_lossy(alloc, shape, bytes)?;
    let written = write(&datum, out);
    drop(datum);
    written
}

// `recast`, but for its other promises.
fn through(alloc: Global, shape: &Shape, bytes: &[u8]) -> Result<Vec<u8>, RecastError>
    ensures { IsRecast (recast_of shape.now bytes.now) result }
{
    if let Some(made) = recast_at_once(alloc, shape, bytes) {
        return Ok(made);
    }
    let mut out = Out::new(alloc);
    recast_in_two(alloc, shape, bytes, &mut out)?;
    Ok(out.into_vec())
}

// `recast_utf8_lossy`, but for its other promises.
fn through_lossy(alloc: Global, shape: &Shape, bytes: &[u8]) -> Result<Vec<u8>, RecastError>
    ensures { IsRecast (lossy_recast_of shape.now bytes.now) result }
{
    if let Some(made) = recast_at_once_utf8_lossy(alloc, shape, bytes) {
        return Ok(made);
    }
    let mut out = Out::new(alloc);
    recast_lossy_in_two(alloc, shape, bytes, &mut out)?;
    Ok(out.into_vec())
}
