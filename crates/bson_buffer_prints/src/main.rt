//! Prints once what each call with buffers does where there is memory: with buffers that are large enough, too small for the output, and too small for
//! the text. The gate compares the lines with those in `stdout`, which come from what the calls promise and from the texts of the refusals.
#![tactic(auto)]

mod differences;
mod documents;
mod files;
mod reports;
mod shapes;

use bson_lines::Lines;
use std::alloc::Global;
use std::io;

/// Adds all lines.
fn add_all(lines: &mut Lines, alloc: Global) {
    shapes::add_judged(lines, alloc);
    differences::add_differences(lines, alloc);
    documents::add_recast(lines, alloc);
    documents::add_found(lines);
    files::add_migrated(lines, alloc);
    files::add_listed(lines, alloc);
}

fn main(rt: HostRuntime) -> io::Result<()> {
    let mut lines = Lines::new(rt.alloc());
    add_all(&mut lines, rt.alloc());
    lines.print(&rt)
}
