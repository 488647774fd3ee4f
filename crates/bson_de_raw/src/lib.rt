//! Reading the bytes of a document at a shape.
#![tactic(auto)]

mod document;

pub use bson_de::read_for;
pub use document::{from_slice_at, from_slice_utf8_lossy_at};
