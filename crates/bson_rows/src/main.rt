//! Runs the recast, the migration, the inference of a shape and the comparison of two, and the reader and the writer of trees, at each row of a table on standard input, and prints
//! the rows that do not hold and how many do.
//!
//! A row is a line of cells with ` | ` between them. An empty line, and one that begins with `#`, is no row.
#![tactic(auto)]

mod row;
mod runs;
mod trees;

use crate::row::Row;
use crate::runs::{Run, run_row};
use std::alloc::Global;
use std::io;
use std::io::Print;

/// Prints a line that is no row.
fn print_no_row(rt: &impl Print, line: &str) -> io::Result<()> {
    println!(rt; "no row: {line}")
}

/// Prints a row that does not hold, and what came of it.
fn print_run(rt: &impl Print, line: &str, run: &Run) -> io::Result<()> {
    println!(rt; "{line}\n    {run}")
}

/// Runs a row, and prints it if it does not hold.
fn print_unless_held(rt: &impl Print, alloc: Global, line: &str, row: &Row) -> io::Result<bool> {
    let run = run_row(alloc, row)?;
    let holds = run.is_as_in(row);
    if !holds {
        print_run(rt, line, &run)?;
    }
    Ok(holds)
}

/// Whether a line is a row that holds. What does not hold is printed.
fn holds(rt: &impl Print, alloc: Global, line: &str) -> io::Result<bool> {
    match Row::parse(alloc, line) {
        Ok(row) => print_unless_held(rt, alloc, line, &row),
        Err(_) => {
            print_no_row(rt, line)?;
            Ok(false)
        }
    }
}

fn main(rt: HostRuntime) -> io::Result<()> {
    let alloc = rt.alloc();
    let mut held = 0u32;
    for line in rt.lines(alloc) {
        let line = line?;
        let is_row = !line.is_empty() && !line.starts_with('#');
        if is_row && holds(&rt, alloc, line.as_str())? {
            held = held.saturating_add(1);
        }
    }
    println!(rt; "{held} rows hold")
}
