// Documents are recast, and found in a file.
use crate::reports::{FILE, SEVEN, add_report};
use bson_buffers::{document_at, recast_into};
use bson_lines::Lines;
use std::alloc::Global;

/// Recasts `SEVEN` at a shape.
fn add_at(lines: &mut Lines, alloc: Global, shape: &str, output: &mut [u8], text: &mut [u8]) {
    let report = recast_into(alloc, shape.as_bytes(), &SEVEN, output, text);
    add_report(lines, shape, &report, output, text);
}

/// A document that is recast, where the buffer is too small and where it is larger; one that is not read and one that is not written, whose texts fit and
/// do not fit; and a shape that is refused.
pub fn add_recast(lines: &mut Lines, alloc: Global) {
    add_at(lines, alloc, "{n:u32}", &mut [255; 15], &mut [b'.'; 48]);
    add_at(lines, alloc, "{n:u32}", &mut [255; 18], &mut [b'.'; 48]);
    add_at(lines, alloc, "{n:bool}", &mut [255; 18], &mut [b'.'; 48]);
    add_at(lines, alloc, "{n:bool}", &mut [255; 18], &mut [b'.'; 10]);
    add_at(lines, alloc, "[char:i32]", &mut [255; 18], &mut [b'.'; 48]);
    add_at(lines, alloc, "[char:i32]", &mut [255; 18], &mut [b'.'; 10]);
    add_at(lines, alloc, "{n:u33}", &mut [255; 18], &mut [b'.'; 48]);
}

/// What is at places of a file.
pub fn add_found(lines: &mut Lines) {
    for place in [0, 12, 13, 17, 18] {
        lines.debug("found", &document_at(&FILE, place));
    }
}
