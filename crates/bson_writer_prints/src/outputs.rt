// Outputs that hold something before.
use bson_io::{Out, Steps, Tally};
use bson_lines::Lines;
use std::alloc::Global;

/// An output that holds the byte 255; where memory runs out, none.
pub fn output(alloc: Global) -> Out {
    let mut out = Out::new(alloc);
    let mut steps = Steps::<Tally>::new();
    if out.push(0xff, &mut steps).is_err() {
        out.cut(0);
    }
    out
}

/// Adds what an output holds.
pub fn add_output(lines: &mut Lines, out: &Out) {
    lines.hex("output", out.as_bytes());
}
