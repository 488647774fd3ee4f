//! Prints what the writers of data answer, call by call: the writer of trees, and those of bytes, part by part and field by field. The structs of reserved names that are written come
//! from standard input, a line each; an empty line, and one that begins with `#`, is none. The gate compares the lines with those in `stdout`, which come from the definitions and
//! from bsonspec.org, version 1.1.
#![tactic(auto)]

mod calls;
mod fields;
mod outputs;
mod refusals;
mod structs;
mod trees;

use bson_lines::Lines;
use std::alloc::Global;
use std::io;

/// Adds what a line on standard input asks for.
fn add_line(lines: &mut Lines, alloc: Global, line: &io::Result<String>) {
    match line {
        Ok(line) => structs::add_struct(lines, alloc, line),
        Err(error) => lines.text("no line", error),
    }
}

fn main(rt: HostRuntime) -> io::Result<()> {
    let alloc = rt.alloc();
    let mut lines = Lines::new(alloc);
    trees::add_trees(&mut lines, alloc);
    refusals::add_refusals(&mut lines, alloc);
    calls::add_calls(&mut lines, alloc);
    for line in rt.lines(alloc) {
        add_line(&mut lines, alloc, &line);
    }
    lines.print(&rt)
}
