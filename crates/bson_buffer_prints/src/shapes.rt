// Shapes are judged.
use crate::reports::add_report;
use bson_buffers::check_shape;
use bson_lines::Lines;
use std::alloc::Global;

/// Judges a shape.
fn add_shape(lines: &mut Lines, alloc: Global, what: &str, shape: &[u8], text: &mut [u8]) {
    let report = check_shape(alloc, shape, text);
    add_report(lines, what, &report, &[], text);
}

/// A shape, no notation, a form that is refused, whose text does not fit, and bytes that are no text.
pub fn add_judged(lines: &mut Lines, alloc: Global) {
    add_shape(lines, alloc, "shape", b"{n:u32}", &mut [b'.'; 16]);
    add_shape(lines, alloc, "no shape", b"{n:u33}", &mut [b'.'; 16]);
    add_shape(lines, alloc, "name twice", b"[<A,A>]", &mut [b'.'; 8]);
    add_shape(lines, alloc, "no text", b"\"a\xff", &mut [b'.'; 16]);
}
