//! The examples of the tour of the crate `bson` over types of one's own: each file but `printing.rt` and this is one block of its docstring. The program runs each example once, where there is
//! memory, and prints what it returns. The gate compares the lines with those in `stdout`, which come from what the tour says of the examples and from bsonspec.org, version 1.1.
#![tactic(auto)]

mod cat;
mod household;
mod own_types;
mod pedigree;
mod pet;
mod printing;

use bson_lines::Lines;
pub use cat::Cat;
pub use household::Person;
pub use pedigree::Pedigree;
pub use pet::Pet;
use std::io;

fn main(rt: HostRuntime) -> io::Result<()> {
    let mut lines = Lines::new(rt.alloc());
    printing::add_all(&mut lines, rt.alloc());
    lines.print(&rt)
}
