//! The examples of the tour of the crate `bson` that are over values in memory: each file but `printing.rt` and this is one block of its docstring. The program runs each example once, where
//! there is memory, and prints what it returns. The gate compares the lines with those in `stdout`, which come from what the tour says of the examples and from bsonspec.org, version 1.1.
#![tactic(auto)]

mod accessors;
mod bson;
mod extended;
mod parts;
mod printing;
mod trees;

use bson_lines::Lines;
use std::alloc::Global;
use std::io;

/// Adds all lines.
fn add_all(lines: &mut Lines, alloc: Global) {
    printing::add_age(lines, alloc);
    printing::add_parts(lines, alloc);
    printing::add_city(lines, alloc);
    printing::add_trees(lines, alloc);
    printing::add_event(lines, alloc);
}

fn main(rt: HostRuntime) -> io::Result<()> {
    let mut lines = Lines::new(rt.alloc());
    add_all(&mut lines, rt.alloc());
    lines.print(&rt)
}
