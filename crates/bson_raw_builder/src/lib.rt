//! Raw values: a kind, and the bytes of a value as they stand behind a key. They are taken from an element of a document, or built of a value in memory.
#![tactic(auto)]

mod bodies;
mod building;
mod ids;
mod reading;

pub use bson_raw_parts::{RawValue, raw_from_element};
pub use bson_trees::read_extended;
pub use building::{raw_from_bson, raw_of_bson};
pub use reading::read_raw_tree;
