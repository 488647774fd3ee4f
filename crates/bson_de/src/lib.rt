//! Reading a value at a shape, in bytes or in a tree.
#![tactic(auto)]

mod enumeration;
mod leaf;
mod map;
mod structure;
mod tuple;
mod value;

pub use value::{read_for, read_value};
