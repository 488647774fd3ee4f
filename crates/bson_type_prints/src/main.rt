//! Prints what no contract says of types whose values are written and read, and of trees that are read at a shape: once what each call and each helper returns where there is memory. The gate compares the lines
//! with those in `stdout`, which come from the definitions and from bsonspec.org, version 1.1.
#![tactic(auto)]

mod documents;
mod helpers;
mod tables;
mod trees;
mod values;

use bson_lines::Lines;
use std::alloc::Global;
use std::io;

/// Adds all lines.
fn add_all(lines: &mut Lines, alloc: Global) {
    values::add_numbers(lines);
    values::add_values(lines, alloc);
    values::add_comparisons(lines);
    documents::add_documents(lines, alloc);
    helpers::add_helpers(lines, alloc);
    tables::add_tables(lines, alloc);
    trees::add_trees(lines, alloc);
}

fn main(rt: HostRuntime) -> io::Result<()> {
    let mut lines = Lines::new(rt.alloc());
    add_all(&mut lines, rt.alloc());
    lines.print(&rt)
}
