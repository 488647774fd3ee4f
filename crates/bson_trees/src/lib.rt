//! Reading a value as a tree, at the leaves of extended kinds, and in its bytes.
#![tactic(auto)]

mod extended;
mod maps;
mod raw;
mod scalars;
mod trees;
mod unique_id;

pub use extended::read_extended;
