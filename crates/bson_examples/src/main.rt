//! The examples of the tour of the crate `bson` that read, write and recast documents: each file but `printing.rt`, `refusals.rt` and this is one block of its docstring. Those over values in
//! memory are in `bson_example_values`, those over types of one's own in `bson_example_types`. The program runs each example once, where there is memory, and prints what it returns. The gate
//! compares the lines with those in `stdout`, which come from what the tour says of the examples and from bsonspec.org, version 1.1.
#![tactic(auto)]

mod bson;
mod files;
mod places;
mod printing;
mod raw_documents;
mod reading;
mod recasting;
mod refusals;
mod shapes;
mod writing;

use bson_lines::Lines;
use std::alloc::Global;
use std::io;

/// Adds all lines.
fn add_all(lines: &mut Lines, alloc: Global) {
    printing::add_person(lines, alloc);
    printing::add_upgraded(lines, alloc);
    refusals::add_refusals(lines, alloc);
    printing::add_total(lines);
    printing::add_longest(lines);
    printing::add_file(lines, alloc);
}

fn main(rt: HostRuntime) -> io::Result<()> {
    let mut lines = Lines::new(rt.alloc());
    add_all(&mut lines, rt.alloc());
    lines.print(&rt)
}
