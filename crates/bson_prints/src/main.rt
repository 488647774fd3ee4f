//! Prints what no contract says of documents that are read, written and recast: the text of `Debug`, copies of what is read, once what each call makes, what the writer refuses, and runs whose ends fail; and once
//! what is made by raw values, by the functions of extended values, and by what the programs share. The
//! gate compares the lines with those in `stdout`, which come from the definitions and from bsonspec.org, version 1.1.
#![tactic(auto)]

mod calls;
mod data;
mod faults;
mod programs;
mod raw;
mod reading;
mod refusals;
mod sources;
mod trees;

use bson_lines::Lines;
use std::alloc::Global;
use std::io;

/// Adds all lines.
fn add_all(lines: &mut Lines, alloc: Global) {
    reading::add_documents(lines, alloc);
    calls::add_calls(lines, alloc);
    trees::add_trees(lines, alloc);
    refusals::add_refusals(lines, alloc);
    faults::add_faults(lines, alloc);
    sources::add_sources(lines, alloc);
    raw::add_raw(lines, alloc);
    data::add_data(lines, alloc);
    programs::add_programs(lines, alloc);
}

fn main(rt: HostRuntime) -> io::Result<()> {
    let mut lines = Lines::new(rt.alloc());
    add_all(&mut lines, rt.alloc());
    lines.print(&rt)
}
