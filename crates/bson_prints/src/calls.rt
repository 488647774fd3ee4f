// What each call makes of a document, once, where there is memory.
use bson_datum::Datum;
use bson_de_raw::from_slice_utf8_lossy_at;
use bson_io::{Out, Steps, Tally};
use bson_lines::Lines;
use bson_recasting::{recast, recast_by_tree, recast_to_buf, recast_utf8_lossy};
use bson_ser_stream::to_vec_counted;
use bson_shape::Shape;
use std::alloc::Global;

/// The document with the field `s`, the text `a`.
const DOCUMENT: &[u8] = b"\x0e\0\0\0\x02s\0\x02\0\0\0a\0\0";

/// The same with a text of one byte that is not UTF-8.
const ILL_FORMED: &[u8] = b"\x0e\0\0\0\x02s\0\x02\0\0\0\xff\0\0";

/// Adds the bytes that a value is written as, counted.
fn add_counted(lines: &mut Lines, alloc: Global, value: &Datum<'_>) {
    let mut steps = Steps::<Tally>::new();
    lines.bytes("to_vec_counted", to_vec_counted(alloc, value, &mut steps));
}

/// Adds what is read of a document whose text is mended, and the bytes of that.
fn add_mended(lines: &mut Lines, alloc: Global, shape: &Shape) {
    match from_slice_utf8_lossy_at(alloc, shape, ILL_FORMED) {
        Ok(value) => {
            lines.debug("from_slice_utf8_lossy_at", &value);
            add_counted(lines, alloc, &value);
            drop(value);
        }
        Err(error) => lines.text("not read", &error),
    }
}

/// Adds what a buffer holds behind a recast.
fn add_buffer(lines: &mut Lines, alloc: Global, shape: &Shape) {
    let mut out = Out::new(alloc);
    lines.made(
        "recast_to_buf",
        recast_to_buf(alloc, shape, DOCUMENT, &mut out),
    );
    lines.hex("bytes", out.as_bytes());
}

/// Adds what each call recasts a document to.
fn add_recasts(lines: &mut Lines, alloc: Global, shape: &Shape) {
    lines.bytes("recast", recast(alloc, shape, DOCUMENT));
    lines.bytes("recast_by_tree", recast_by_tree(alloc, shape, DOCUMENT));
    lines.bytes(
        "recast_utf8_lossy",
        recast_utf8_lossy(alloc, shape, ILL_FORMED),
    );
}

/// What each call makes of a document at a shape.
pub fn add_calls(lines: &mut Lines, alloc: Global) {
    match Shape::parse(alloc, "S{s:string}") {
        Ok(shape) => {
            add_mended(lines, alloc, &shape);
            add_buffer(lines, alloc, &shape);
            add_recasts(lines, alloc, &shape);
        }
        Err(error) => lines.text("no shape", &error),
    }
}
