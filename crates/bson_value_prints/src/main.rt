//! Prints what no contract says of values, shapes and ends: the text of `Debug`, what the public formats of texts give, and once what each call that takes memory returns where there
//! is memory. The gate compares the lines with those in `stdout`, which come from the definitions, from bsonspec.org, version 1.1, from RFC 3339 and from RFC 9562.
#![tactic(auto)]

mod documents;
mod elements;
mod ends;
mod errors;
mod shapes;
mod texts;
mod values;

use bson_lines::Lines;
use std::alloc::Global;
use std::io;

/// Adds all lines.
fn add_all(lines: &mut Lines, alloc: Global) {
    elements::add_elements(lines, alloc);
    texts::add_texts(lines, alloc);
    values::add_values(lines, alloc);
    documents::add_documents(lines, alloc);
    shapes::add_shapes(lines, alloc);
    errors::add_errors(lines, alloc);
    ends::add_ends(lines, alloc);
}

fn main(rt: HostRuntime) -> io::Result<()> {
    let mut lines = Lines::new(rt.alloc());
    add_all(&mut lines, rt.alloc());
    lines.print(&rt)
}
